//! What is wrong with a setup line.
use crate::above::{Place, Tally};
use crate::fields::{Judged, Rest, behind_fields, judge_end, judge_values, word_field};
use crate::texts::judge_text;
use crate::{Field, FieldFault, Limit, LineFault, Twice};
use conn_model::Dialect;

/// The bytes that a URL has at most.
const MAX_URL: usize = 65_536;

/// The bytes that the text of a query has at most.
const MAX_TEXT: usize = 512;

/// The bytes that a `row` line has at most behind its word and a space.
const MAX_ROW: usize = 1_020;

fn judge_url<'a>(place: Place, rest: Rest<'a>) -> Judged<'a> {
    let Some(url) = rest else {
        return Err(LineFault::Field(FieldFault::Missing(Field::Url)));
    };
    if url.len() > MAX_URL {
        return Err(LineFault::TooMuch(Limit::Url));
    }
    if place.is_said(&["url"]) {
        return Err(LineFault::Twice(Twice::Url));
    }
    Ok(())
}

/// The code, the kind and the wish at the end of a line.
fn judge_order<'a>(dialect: Dialect, rest: Rest<'a>) -> Judged<'a> {
    let (code, rest) = word_field(Field::Code, rest)?;
    let (_, rest) = word_field(Field::Kind(dialect), rest)?;
    let (wish, rest) = word_field(Field::Wish, rest)?;
    judge_end(Field::Wish, rest)?;
    if dialect == Dialect::Mysql && wish == "end" && code != "1213" {
        return Err(LineFault::EndWithoutDeadlock);
    }
    Ok(())
}

fn judge_refuse<'a>(place: Place, dialect: Dialect, rest: Rest<'a>) -> Judged<'a> {
    let (server, rest) = word_field(Field::Server, rest)?;
    let (item, rest) = word_field(Field::Item, rest)?;
    judge_order(dialect, rest)?;
    if place.is_said(&["refuse", server, item]) {
        return Err(LineFault::Twice(Twice::Item(server, item)));
    }
    Ok(())
}

fn judge_refuserow<'a>(place: Place, dialect: Dialect, rest: Rest<'a>) -> Judged<'a> {
    let (server, rest) = word_field(Field::Server, rest)?;
    let (item, rest) = word_field(Field::Item, rest)?;
    let (_, rest) = word_field(Field::Row, rest)?;
    judge_order(dialect, rest)?;
    if place.is_said(&["refuserow", server, item]) {
        return Err(LineFault::Twice(Twice::Run(server, item)));
    }
    Ok(())
}

fn judge_noconnect<'a>(place: Place, rest: Rest<'a>) -> Judged<'a> {
    let (attempt, rest) = word_field(Field::Attempt, rest)?;
    let (_, rest) = word_field(Field::Code, rest)?;
    judge_end(Field::Code, rest)?;
    if place.is_said(&["noconnect", attempt]) {
        return Err(LineFault::Twice(Twice::Attempt(attempt)));
    }
    Ok(())
}

fn judge_query<'a>(place: Place, rest: Rest<'a>) -> Judged<'a> {
    let (query, rest) = word_field(Field::Query, rest)?;
    let (_, rest) = word_field(Field::Safety, rest)?;
    let (id, rest) = word_field(Field::Id, rest)?;
    let rest = behind_fields(&[Field::Binds, Field::Shape], rest)?;
    judge_text(rest, MAX_TEXT, Limit::QueryText)?;
    if place.is_said(&["query", query]) {
        return Err(LineFault::Twice(Twice::Query(query)));
    }
    if id != "-" && place.has_id(id) {
        return Err(LineFault::Twice(Twice::Id(id)));
    }
    Ok(())
}

/// The line that gives a query's text a row. Where all else is right, the rows above leave it no place.
fn judge_row<'a>(place: Place, rest: Rest<'a>) -> Judged<'a> {
    let length = rest.unwrap_or("").len();
    let (query, rest) = word_field(Field::Query, rest)?;
    judge_values(rest)?;
    if length > MAX_ROW {
        return Err(LineFault::TooMuch(Limit::RowLine));
    }
    if !place.is_said(&["query", query]) {
        return Err(LineFault::Undeclared(query));
    }
    Err(LineFault::TooMuch(Limit::Rows))
}

/// The line as a setup line of this word.
pub fn judge_setup<'a>(place: Place, tally: Tally, word: &'a str, rest: Rest<'a>) -> Judged<'a> {
    if tally.commands > 0 {
        return Err(LineFault::BehindCommands(word));
    }
    match word {
        "url" => judge_url(place, rest),
        "refuse" => judge_refuse(place, tally.dialect, rest),
        "refuserow" => judge_refuserow(place, tally.dialect, rest),
        "noconnect" => judge_noconnect(place, rest),
        "query" => judge_query(place, rest),
        _ => judge_row(place, rest),
    }
}
