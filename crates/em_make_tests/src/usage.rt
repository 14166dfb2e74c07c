//! What was asked, as a text.
use em_base::Text;
use em_states::put_all;
use em_tree::{Entry, Question};

fn show_question(to: &mut Text, question: &Question) {
    match question {
        Question::Kind(path) => put_all(to, &[b" K", path.text()]),
        Question::Names(path) => put_all(to, &[b" N", path.text()]),
        Question::Link(path) => put_all(to, &[b" L", path.text()]),
        _ => put_all(to, &[b" ?"]),
    }
}

/// Each question as a letter (K kind, N names, L link) and its path.
pub(super) fn show_usage(to: &mut Text, usage: &[Entry]) {
    for entry in usage {
        show_question(to, &entry.question);
    }
}
