//! What a round is: the definitions of all that is promised of it, and their laws.
#![tactic(auto)]

mod laws;

pub use laws::{
    beginning_laws, course_laws, courses_stop, delivery_laws, first_posts_are_delivered,
    inquiries_are_of_logs, justified_laws, lists_agree, not_unanimous_blames, open_rounds_wait,
    own_posts_settled, own_row_laws, row_laws, stands_are_reached, string_laws, verdict_laws,
    whole_course,
};

#[cfg(test)]
mod tests;
