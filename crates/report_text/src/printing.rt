//! The text of a report.
ghost use Rattle.std.specs.Prelude.{◌≡◌, ◌++◌, ◌∷◌, [], All, IfOk, OnOk, codes};
ghost use Rattle.line_text.specs.Buffer.{bytes_in};
ghost use Rattle.line_text.specs.LineText.{functions_of};
ghost use Rattle.line_text.specs.Names.{IsOver};
ghost use Rattle.line_text.specs.Numeral.{numeral};
ghost use Rattle.report_text.specs.Fitting.{IsFitText};
ghost use Rattle.report_text.specs.Printed.{AreRowTexts, AreTextsOf, IsExactAdded, IsHeadedAdded, IsLineOver, IsReportOver, IsReportText, IsSectionAdded};
ghost use Rattle.report_text.specs.Printed.{IsLineText, adviser_lines, cause_text, ended_lines, explain_part, headed_if_any, ranked_head, verdict_line};

use crate::line::Line;
use crate::line_list::Lines;
use crate::report::{Explain, Header, Report, Stop};
use line_text::{push_line, push_numeral, push_row};
use linear_cons::Row;
use std::alloc::{AllocError, Global};
use step_meaning::Names;

/// The text of the report: the exact part, the proved lines, those that end by a rank, where there is one, and the unknown ones, the
/// explanation and the verdict, each line ended by a newline byte. The rows of a condition and the lines of a section stand
/// in the order of their bytes. The only error is want of memory.
pub fn print(alloc: Global, report: &Report, names: &Names) -> Result<Vec<u8>, AllocError>
    requires { IsReportOver names.now report.now }
    ensures { IfOk result (λ text. IsReportText names.now report.now text.items) }
{
    let mut text = Vec::new(alloc);
    push_exact(alloc, &mut text, &report.header, &report.exact, names)?;
    push_headed(alloc, &mut text, b"proved:", &report.proved, names)?;
    push_ranked(alloc, &mut text, &report.ranked, names)?;
    push_headed(alloc, &mut text, b"unknown:", &report.unknown, names)?;
    push_explain(&mut text, &report.explain)?;
    push_verdict(&mut text, &report.unknown)?;
    Ok(text)
}

/// The text of a report on what fits: the lines that fit, the unknown ones, and the verdict, each line ended by a newline byte, in the same orders. The only
/// error is want of memory.
pub fn print_fit(
    alloc: Global,
    fits: &Lines,
    unknown: &Lines,
    names: &Names,
) -> Result<Vec<u8>, AllocError>
    requires fits { All (IsLineOver names.now) fits.now }
    requires unknown { All (IsLineOver names.now) unknown.now }
    ensures { IfOk result (λ text. IsFitText names.now fits.now unknown.now text.items) }
{
    let mut text = Vec::new(alloc);
    push_headed(alloc, &mut text, b"fits:", fits, names)?;
    push_headed(alloc, &mut text, b"unknown:", unknown, names)?;
    push_verdict(&mut text, unknown)?;
    Ok(text)
}

/// Appends the exact part: its header, and the exact lines where some level was made.
fn push_exact(
    alloc: Global,
    text: &mut Vec<u8>,
    header: &Header,
    lines: &Lines,
    names: &Names,
) -> Result<(), AllocError>
    requires { All (IsLineOver names.now) lines.now }
    ensures { OnOk result (IsExactAdded names.now header.now lines.now text.old.items text.new.items) }
{
    match header {
        Header::Absent => Ok(()),
        Header::Whole { tests } => {
            push_whole(text, *tests)?;
            push_section(alloc, text, lines, names)
        }
        Header::Partial { tests, cause } => {
            push_partial(text, *tests, *cause)?;
            push_section(alloc, text, lines, names)
        }
        Header::Stopped { cause } => {
            text.extend_from_slice(b"exact: ")?;
            push_ended(text, words_of(*cause))
        }
    }
}

/// Appends the header of the last level, where all were made.
fn push_whole(text: &mut Vec<u8>, tests: u32) -> Result<(), AllocError>
    ensures { OnOk result (text.new.items ≡ text.old.items ++ ((codes "exact, " ++ (numeral tests ++ codes " tests:")) ++ 10 ∷ [])) }
{
    text.extend_from_slice(b"exact, ")?;
    push_numeral(text, u128::from(tests))?;
    push_ended(text, b" tests:")
}

/// Appends the header of a level behind which the next one stopped.
fn push_partial(text: &mut Vec<u8>, tests: u32, cause: Stop) -> Result<(), AllocError>
    ensures { OnOk result (text.new.items ≡ text.old.items
        ++ ((codes "exact, " ++ (numeral tests ++ (codes " tests, then " ++ (cause_text cause ++ codes ":")))) ++ 10 ∷ [])) }
{
    text.extend_from_slice(b"exact, ")?;
    push_numeral(text, u128::from(tests))?;
    text.extend_from_slice(b" tests, then ")?;
    text.extend_from_slice(words_of(cause))?;
    push_ended(text, b":")
}

/// The cause in words.
fn words_of(cause: Stop) -> &'static [u8]
    ensures { result.now ≡ cause_text cause }
{
    match cause {
        Stop::WideNumbers => b"wide numbers",
        Stop::TooManyNodes => b"too many nodes",
        Stop::NotPlain => b"not a plain program",
    }
}

/// Appends the bytes and a newline byte.
fn push_ended(text: &mut Vec<u8>, line: &[u8]) -> Result<(), AllocError>
    ensures { OnOk result (text.new.items ≡ text.old.items ++ (line.now ++ 10 ∷ [])) }
{
    text.extend_from_slice(line)?;
    text.push(b'\n')?;
    Ok(())
}

/// Appends the head and the lines of a section.
fn push_headed(
    alloc: Global,
    text: &mut Vec<u8>,
    head: &[u8],
    lines: &Lines,
    names: &Names,
) -> Result<(), AllocError>
    requires { All (IsLineOver names.now) lines.now }
    ensures { OnOk result (IsHeadedAdded names.now (λ texts. head.now ∷ texts) lines.now text.old.items text.new.items) }
{
    push_ended(text, head)?;
    push_section(alloc, text, lines, names)
}

/// Appends the section of what ends by a rank, where it has a line.
fn push_ranked(
    alloc: Global,
    text: &mut Vec<u8>,
    lines: &Lines,
    names: &Names,
) -> Result<(), AllocError>
    requires { All (IsLineOver names.now) lines.now }
    ensures { OnOk result (IsHeadedAdded names.now (λ texts. headed_if_any ranked_head texts) lines.now text.old.items text.new.items) }
{
    if lines.items().is_empty() {
        return Ok(());
    }
    push_headed(alloc, text, b"ranked:", lines, names)
}

/// Appends the lines in the order of their bytes.
fn push_section(
    alloc: Global,
    text: &mut Vec<u8>,
    lines: &Lines,
    names: &Names,
) -> Result<(), AllocError>
    requires { All (IsLineOver names.now) lines.now }
    ensures { OnOk result (IsSectionAdded names.now lines.now text.old.items text.new.items) }
{
    let texts = sorted_lines(alloc, lines.items(), names)?;
    push_lines(text, &texts)
}

/// Appends the texts, each ended by a newline byte.
fn push_lines(text: &mut Vec<u8>, lines: &[Vec<u8>]) -> Result<(), AllocError>
    ensures { OnOk result (text.new.items ≡ text.old.items ++ ended_lines (bytes_in lines.now)) }
{
    for line in lines {
        push_ended(text, line)?;
    }
    Ok(())
}

/// The texts of the lines, in the order of their bytes.
fn sorted_lines(alloc: Global, lines: &[Line], names: &Names) -> Result<Vec<Vec<u8>>, AllocError>
    requires { All (IsLineOver names.now) lines.now }
    ensures { IfOk result (λ texts. AreTextsOf names.now lines.now (bytes_in texts.items)) }
{
    let mut texts = Vec::new(alloc);
    for line in lines {
        let text = text_of(alloc, line, names)?;
        texts.push(text)?;
    }
    texts.sort()?;
    Ok(texts)
}

/// The text of a line, with its rows in the order of their bytes.
fn text_of(alloc: Global, line: &Line, names: &Names) -> Result<Vec<u8>, AllocError>
    requires { IsLineOver names.now line.now }
    ensures { IfOk result (λ text. IsLineText names.now line.now text.items) }
{
    let rows = sorted_rows(alloc, line.rows.items(), names)?;
    let mut text = Vec::new(alloc);
    push_line(&mut text, &rows, &line.claim, names)?;
    Ok(text)
}

/// The texts of the rows, in the order of their bytes.
fn sorted_rows(alloc: Global, rows: &[Row], names: &Names) -> Result<Vec<Vec<u8>>, AllocError>
    requires { All (IsOver names.now) (functions_of rows.now) }
    ensures { IfOk result (λ texts. AreRowTexts names.now rows.now (bytes_in texts.items)) }
{
    let mut written = Vec::new(alloc);
    for row in rows {
        let mut text = Vec::new(alloc);
        push_row(&mut text, row, names)?;
        written.push(text)?;
    }
    written.sort()?;
    Ok(written)
}

/// Appends the explanation, if there is one.
fn push_explain(text: &mut Vec<u8>, explain: &Option<Explain>) -> Result<(), AllocError>
    ensures { OnOk result (text.new.items ≡ text.old.items ++ ended_lines (explain_part explain.now)) }
{
    match explain {
        None => Ok(()),
        Some(explain) => {
            push_ended(text, b"explain:")?;
            push_counted(text, b"labels ", u64::from(explain.labels))?;
            push_counted(text, b"families ", u64::from(explain.families))?;
            push_advisers(text, explain.asked.items())
        }
    }
}

/// Appends the words with the number behind them, and a newline byte.
fn push_counted(text: &mut Vec<u8>, words: &[u8], number: u64) -> Result<(), AllocError>
    ensures { OnOk result (text.new.items ≡ text.old.items ++ ((words.now ++ numeral number) ++ 10 ∷ [])) }
{
    text.extend_from_slice(words)?;
    push_numeral(text, u128::from(number))?;
    text.push(b'\n')?;
    Ok(())
}

/// Appends how often each adviser was asked. Advisers are numbered from 1.
fn push_advisers(text: &mut Vec<u8>, asked: &[u64]) -> Result<(), AllocError>
    ensures { OnOk result (text.new.items ≡ text.old.items ++ ended_lines (adviser_lines 1 asked.now)) }
{
    for (index, times) in asked.iter().enumerate() {
        text.extend_from_slice(b"adviser ")?;
        push_numeral(text, index as u128 + 1)?;
        push_counted(text, b" asked ", *times)?;
    }
    Ok(())
}

/// Appends the verdict: something is claimed of all inputs exactly where no line is unknown.
fn push_verdict(text: &mut Vec<u8>, unknown: &Lines) -> Result<(), AllocError>
    ensures { OnOk result (text.new.items ≡ text.old.items ++ ended_lines (verdict_line unknown.now ∷ [])) }
{
    if unknown.items().is_empty() {
        push_ended(text, b"verdict: all inputs")
    } else {
        push_ended(text, b"verdict: some inputs")
    }
}
