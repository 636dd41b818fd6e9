// What is done to each item.

ghost use Rattle.std.specs.Prelude.{◌<◌, ℕ, length, slice_index_or};
ghost use Rattle.kept_threads.specs.Changes.{EachChanged};

/// What a pool does to each item, in any of its threads.
pub trait Task<T> {
    /// What it may leave of an item.
    ghost changes: { T → T → Type 0 };

    fn run(&self, item: &mut T)
        ensures { changes item.old item.new };
}

fn run_on<T, W: Task<T>>(task: &W, item: &mut T)
    ensures { W.changes item.old item.new }
{
    task.run(item);
}

// Does it to each item, one after another.
pub(crate) fn run_on_each<T, W: Task<T>>(task: &W, items: &mut [T])
    ensures { EachChanged W.changes items.old items.new }
{
    for place in 0..items.len() {
        run_on(task, &mut items[place]);
    }
}
