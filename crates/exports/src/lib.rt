// What a C program calls, as Rattle sees it: every public function below that asks nothing of its caller. Each is a call of the proved function and
// promises the same; where the function below answers an enum, an Option or a Result, a record with a number for its case stands for it. `exports_c` has them cross to C.
#![tactic(auto)]

mod answers;
mod kinds;
mod numbers;
mod records;
mod tables;
mod text;

// Named here so that the theorems of `demands` can speak of their contracts.
pub use answers::{
    Judgement, Place, Told, Value, negwafir_evaluate, negwafir_float_answer, negwafir_judge,
    negwafir_locate,
};
pub use numbers::{
    negwafir_between, negwafir_count_within, negwafir_difference, negwafir_floor_div,
    negwafir_nearest_div, negwafir_rise_within, negwafir_unit_within, negwafir_width_within,
};
pub use records::Refusal;
pub use tables::{
    negwafir_build, negwafir_change_point, negwafir_changed_points, negwafir_check, negwafir_points,
};
pub use text::{
    Read, Read32, Span, negwafir_append, negwafir_append_natural, negwafir_append_whole,
    negwafir_append_whole32, negwafir_content, negwafir_count_words, negwafir_find,
    negwafir_next_word, negwafir_part, negwafir_whole, negwafir_whole32,
};
