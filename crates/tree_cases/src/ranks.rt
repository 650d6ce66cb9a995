//! Calls on ranks, which are functions. These are `rank more F`, `rank put F for x in F`, `rank greatest L for x in F`, and for where one is greater, or is no
//! natural number, `exceeds F and F` and `negative F`.
use case_text::{Answer, Words, read_function, read_linear};
use decision_tree::{AffineRank, Comparison, Rank};
use linear_cons::Wide;

/// Makes the call of that name and writes its answer; false where none has the name.
pub fn answers(name: &str, words: &mut Words<'_>, answer: &mut Answer) -> bool {
    match name {
        "rank" => push_changed(changed(words), answer),
        "exceeds" => {
            let first = read_rank(words);
            words.expect("and");
            push_compared(first.greater(&read_rank(words), 0), answer);
        }
        "negative" => push_compared(read_rank(words).negative(0), answer),
        _ => return false,
    }
    true
}

fn read_rank(words: &mut Words<'_>) -> AffineRank {
    AffineRank {
        value: read_function(words),
    }
}

/// The rank with a function put in for a variable, one more than it, or the greatest of it as a variable takes the values of an expression.
fn changed(words: &mut Words<'_>) -> Result<Option<AffineRank>, Wide> {
    if words.takes("more") {
        return Ok(Some(read_rank(words).add_one()?));
    }
    let is_put = words.takes("put");
    if !is_put {
        words.expect("greatest");
    }
    let value = read_linear(words);
    words.expect("for");
    let place = words.place();
    words.expect("in");
    let rank = read_rank(words);
    if is_put {
        return Ok(Some(rank.subst(place, &value.affine)?));
    }
    rank.greatest(place, &value)
}

fn push_changed(changed: Result<Option<AffineRank>, Wide>, answer: &mut Answer) {
    match changed {
        Ok(Some(rank)) => answer.push_function(&rank.value),
        Ok(None) => answer.push("none"),
        Err(wide) => answer.push_wide(&wide),
    }
}

/// Writes the constraint, which is all of the comparison.
fn push_compared(compared: Result<Comparison, Wide>, answer: &mut Answer) {
    match compared {
        Ok(comparison) => answer.push_kind(&comparison.more),
        Err(wide) => answer.push_wide(&wide),
    }
}
