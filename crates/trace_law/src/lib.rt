//! What holds of every family of lists in which each actor keeps its law and each link its order.
#![tactic(auto)]

mod input;
mod laws;
mod run;
mod setting;

pub use input::Input;
pub use laws::{
    answers_in_the_end, begins_with_all, complete_is_finished, events_are_few, finished_answers,
    finished_receives_all, fixed_moves_nothing, fixed_stays, keeps_a_lawful_journal,
    lawful_counts_each_row, lawful_is_bounded, lawful_run_is_bounded, limits_suffice,
    no_link_no_message, none_is_strange, quiet_is_finished, sends_nothing_wrong,
    some_family_holds_a_moved_row, some_family_leaves_a_rest, some_family_migrates,
    some_family_moves_an_old_row, some_later_wave_moves_an_older_row, sorts_into_the_loop,
    stores_what_it_holds, taken_is_determined, takes_nothing_wrong,
};
pub use run::Run;
pub use setting::Setting;
