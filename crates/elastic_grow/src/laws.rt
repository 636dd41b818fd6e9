// What a joiner's children hold, and whose child a joiner is.

ghost use Rattle.elastic_grow.specs.Children.{ChildrenHold, EachHasOneParent};

/// A child is a joiner of the grown grid, and holds a ticket only if its parent does.
pub fn children_hold()
    ensures { ChildrenHold }
{}

/// Each joiner of the grown grid is a child of exactly one.
pub fn each_has_one_parent()
    ensures { EachHasOneParent }
{}
