//! The fields of a line, from the left, and the first that is wrong.
use crate::values::{is_bind, is_value};
use crate::{Field, FieldFault, Limit, LineFault};

/// What is left of a line behind a space, or `None` where it ended.
pub type Rest<'a> = Option<&'a str>;

/// Nothing where nothing is wrong.
pub type Judged<'a> = Result<(), LineFault<'a>>;

/// The text before the first space, and that behind it.
pub fn cut_word(text: &str) -> (&str, Rest<'_>) {
    match text.split_once(' ') {
        Some((word, rest)) => (word, Some(rest)),
        None => (text, None),
    }
}

/// Whether this is a number but for a sign or zeros in front.
fn is_padded(word: &str) -> bool {
    let digits = word.trim_start_matches(['+', '-']);
    let is_signed = digits.len() < word.len();
    let has_zeros = digits.len() > 1 && digits.starts_with('0');
    !digits.is_empty() && digits.bytes().all(|b| b.is_ascii_digit()) && (is_signed || has_zeros)
}

/// What is wrong with a list by commas: its first part that is wrong, or the limit.
fn wrong_part<'a>(field: Field, list: &'a str, limit: Limit) -> LineFault<'a> {
    for part in list.split(',') {
        let good = match field {
            Field::Binds => is_bind(part),
            _ => is_value(part),
        };
        if !good {
            return LineFault::Field(FieldFault::Wrong(field, part));
        }
    }
    LineFault::TooMuch(limit)
}

/// What is wrong with a field that doesn't allow this.
fn wrong<'a>(field: Field, word: &'a str) -> LineFault<'a> {
    if word.is_empty() {
        return LineFault::Field(FieldFault::Empty(field));
    }
    if field.is_numeric() && is_padded(word) {
        return LineFault::Field(FieldFault::Padded(word));
    }
    match field {
        Field::Binds => wrong_part(field, word, Limit::Binds),
        Field::Values => wrong_part(field, word, Limit::Values),
        _ => LineFault::Field(FieldFault::Wrong(field, word)),
    }
}

/// The next word, which the field allows, and what is left behind it.
pub fn word_field<'a>(field: Field, rest: Rest<'a>) -> Result<(&'a str, Rest<'a>), LineFault<'a>> {
    let Some(rest) = rest else {
        return Err(LineFault::Field(FieldFault::Missing(field)));
    };
    let (word, rest) = cut_word(rest);
    if !field.allows(word) {
        return Err(wrong(field, word));
    }
    Ok((word, rest))
}

/// What is left behind words that these fields allow.
pub fn behind_fields<'a>(fields: &[Field], rest: Rest<'a>) -> Result<Rest<'a>, LineFault<'a>> {
    let mut left = rest;
    for field in fields {
        let (_, behind) = word_field(*field, left)?;
        left = behind;
    }
    Ok(left)
}

/// The values of a row, which are the rest of the line.
pub fn judge_values<'a>(rest: Rest<'a>) -> Judged<'a> {
    let Some(text) = rest else {
        return Err(LineFault::Field(FieldFault::Missing(Field::Values)));
    };
    if !Field::Values.allows(text) {
        return Err(wrong(Field::Values, text));
    }
    Ok(())
}

/// The line ends behind this field.
pub fn judge_end<'a>(last: Field, rest: Rest<'a>) -> Judged<'a> {
    match rest {
        Some(_) => Err(LineFault::Field(FieldFault::Behind(last))),
        None => Ok(()),
    }
}
