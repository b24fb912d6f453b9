//! The bad line of a script, and what is wrong with it.
use crate::above::Place;
use crate::commands::judge_command;
use crate::fields::{Judged, cut_word};
use crate::header::judge_header;
use crate::nearest::{nearest_word, word_of};
use crate::setup::judge_setup;
use crate::{BlockFault, Layout, Limit, LineFault, Twice};

/// The line that has so many above it, and whether a line feed ends it.
fn line_at(script: &[u8], above: usize) -> Option<(&[u8], bool)> {
    let mut lines = script.split(|b| *b == b'\n').skip(above);
    let line = lines.next()?;
    Some((line, lines.next().is_some()))
}

/// A line whose first word no line has.
fn unknown<'a>(word: &'a str) -> LineFault<'a> {
    if word == "session" {
        return LineFault::Twice(Twice::Header);
    }
    LineFault::UnknownWord(word, nearest_word(word))
}

/// The line by its words, behind the lines above it.
fn judge_words<'a>(place: Place, line: &'a str) -> Judged<'a> {
    let (word, rest) = cut_word(line);
    let tally = place.tally();
    if let Some(command) = word_of(word) {
        return judge_command(place, tally, command, rest);
    }
    match word {
        "url" | "refuse" | "refuserow" | "noconnect" | "query" | "row" => {
            judge_setup(place, tally, word, rest)
        }
        _ => Err(unknown(word)),
    }
}

/// What stands at the begin of a line.
fn judge_begin<'a>(line: &'a str) -> Judged<'a> {
    if line.bytes().all(|b| b == b' ') {
        return Err(LineFault::Layout(Layout::Blank));
    }
    if line.starts_with(' ') {
        return Err(LineFault::Layout(Layout::LeadingSpace));
    }
    if line.starts_with('\u{feff}') {
        return Err(LineFault::Layout(Layout::ByteOrderMark));
    }
    if line.starts_with('#') || line.starts_with("--") || line.starts_with("//") {
        return Err(LineFault::Layout(Layout::Comment));
    }
    Ok(())
}

/// The line that has so many above it.
fn judge_line<'a>(script: &'a [u8], above: usize, line: &'a str) -> Judged<'a> {
    judge_begin(line)?;
    if above == 0 {
        return judge_header(line);
    }
    judge_words(Place::new(script, above), line)
}

/// The same, where a carriage return at its end may be all that is wrong.
fn judge_ended_line<'a>(script: &'a [u8], above: usize, line: &'a str) -> Judged<'a> {
    if let Some(line) = line.strip_suffix('\r') {
        judge_line(script, above, line)?;
        return Err(LineFault::Layout(Layout::CarriageReturn));
    }
    judge_line(script, above, line)
}

/// What is missing at the end of a script that has so many lines.
fn end_fault<'a>(script: &'a [u8], lines: usize) -> LineFault<'a> {
    if lines == 0 {
        return LineFault::NoHeader;
    }
    let tally = Place::new(script, lines).tally();
    if tally.blocks > 0 {
        return LineFault::Block(BlockFault::LeftOpen(tally.inside));
    }
    LineFault::Unclear
}

/// Why the line with this number, from 1, can't stand where it does in the script; 0 stands for a script with too many bytes.
///
/// It is meant for the number with which `parse_script` refuses the bytes, and gives its answer for a person to read: nothing is
/// proved of which one it is. The lines above are read for the dialect, the declared queries and the open blocks.
pub fn line_fault<'a>(script: &'a [u8], line: u32) -> LineFault<'a> {
    if line == 0 {
        return LineFault::TooMuch(Limit::Bytes);
    }
    let above = (line - 1) as usize;
    let Some((bytes, has_line_feed)) = line_at(script, above) else {
        return LineFault::Unclear;
    };
    let Ok(text) = str::from_utf8(bytes) else {
        return LineFault::Layout(Layout::NotUtf8);
    };
    if !has_line_feed {
        if text.is_empty() {
            return end_fault(script, above);
        }
        return LineFault::Layout(Layout::NoLineFeed);
    }
    match judge_ended_line(script, above, text) {
        Ok(()) => LineFault::Unclear,
        Err(fault) => fault,
    }
}
