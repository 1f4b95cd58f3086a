// What the answers are printed with.
use format::Refusal;
use std::fmt::Display;
use std::io;

// Prints that a question is refused, and the refusal's number.
pub fn print_refused(rt: &impl Print, question: &str, why: Refusal) -> io::Result<()> {
    println!(rt; "{question} refused {}", fieldmap::refusal_number(why))
}

// Prints a question and its answer, or the refusal.
pub fn print_answer<A: Display + Drop>(
    rt: &impl Print,
    question: &str,
    answer: Result<A, Refusal>,
) -> io::Result<()> {
    match answer {
        Ok(answer) => println!(rt; "{question} {answer}"),
        Err(why) => print_refused(rt, question, why),
    }
}

// Prints the first entries, a key and its value on a line.
pub fn print_entries(
    rt: &impl Print,
    keys: &[u64],
    values: &[u64],
    count: usize,
) -> io::Result<()> {
    for (key, value) in keys.iter().zip(values).take(count) {
        println!(rt; "{key} {value}")?;
    }
    Ok(())
}
