//! The examples of a page: fenced blocks, each compared with what the library answers.
//!
//! A block of `console` is a transcript. Any other example is two blocks: what is put in, after words that
//! say what it is, as `json submission`, and its answer. Blocks after other words are no examples.
use crate::bodies::body_answer;
use crate::commands::transcript;
use crate::files::{answer_again, file_answer};
use std::io;

/// A page, as far as it was compared.
#[derive(Drop)]
struct Comparison<'a> {
    page: &'a str,
    agreed: usize,
    /// The answer that the next block has to say.
    awaited: Option<Vec<u8>>,
}

/// How many examples of a page are answered as it says. Each that is not is printed.
pub(crate) fn compare(rt: &HostRuntime, page: &str, text: &str) -> io::Result<usize> {
    let mut comparison = Comparison {
        page,
        agreed: 0,
        awaited: None,
    };
    for (number, piece) in text.split("```").enumerate() {
        if number % 2 == 1
            && let Some((words, block)) = piece.split_once('\n')
        {
            take_block(rt, &mut comparison, words, block)?;
        }
    }
    Ok(comparison.agreed)
}

fn take_block(
    rt: &HostRuntime,
    comparison: &mut Comparison<'_>,
    words: &str,
    block: &str,
) -> io::Result<()> {
    match comparison.awaited.take() {
        Some(answer) => take_answer(rt, comparison, answer.as_slice(), block),
        None if words == "console" => {
            let answer = transcript(rt, block)?;
            take_answer(rt, comparison, answer.as_slice(), block)
        }
        None => {
            comparison.awaited = example_answer(rt, words, block)?;
            Ok(())
        }
    }
}

fn take_answer(
    rt: &HostRuntime,
    comparison: &mut Comparison<'_>,
    answer: &[u8],
    block: &str,
) -> io::Result<()> {
    if answer == block.as_bytes() {
        comparison.agreed = comparison.agreed.saturating_add(1);
        return Ok(());
    }
    let page = comparison.page;
    let given = String::from_utf8_lossy(rt.alloc(), answer)?;
    println!(rt; "{page} says\n{block}and the answer is\n{given}")
}

// The answer to a block, if it is an example.
fn example_answer(rt: &HostRuntime, words: &str, block: &str) -> io::Result<Option<Vec<u8>>> {
    match words {
        "text changes" => Ok(Some(file_answer(rt, block)?)),
        "text changes, asked again" => Ok(Some(answer_again(rt, block)?)),
        _ => Ok(body_answer(rt.alloc(), words, block)?),
    }
}
