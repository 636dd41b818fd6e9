// Laws of the grammar.

ghost use Rattle.theta_tree.specs.Texts.{HasOneTree};

/// A text has at most one tree, under any limits. It does nothing: its contract is the law.
pub fn texts_have_one_tree()
    ensures { HasOneTree }
{}
