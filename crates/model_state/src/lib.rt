// A model's state as a list of numbers that a caller lends: one number to each part of it, read and stored by name. A list of any content
// and any length stands for a state (specs/Words.antt): a number past its end reads 0, and an item past its end or past its array is not
// stored.

#![tactic(auto)]

mod layout;
mod reading;
mod time;
mod writing;

pub use layout::{CLOCK_WORDS, STATE_WORDS};
pub use reading::{
    behavior_of, buffer_value, clock_of, code_of, dispatch_time, has_job, input_value, is_active,
    is_live, length_of, local_value, missed_of, now_of, output_value, spent_of,
};
pub use time::{put_time_back, spent_words};
pub use writing::{
    put_active, put_behavior, put_buffer, put_code, put_cpu, put_dispatch_time, put_entered,
    put_input, put_job, put_live, put_local, put_missed, put_mode, put_now, put_output, put_phase,
    put_spent,
};
