//! How often queries are prepared, what rows they have, what refuses them, and what a handler is told of it.
use crate::plans::{Cell, Planned};
use crate::steps::{Case, misses};
use conn_server::Dialect;
use std::test::Fail;

const ALL: &[Dialect] = &[Dialect::Pg, Dialect::Mysql, Dialect::Sqlite];

const THREE: Planned = Planned::Row(&[Cell::Number(3)]);

const ONE: Planned = Planned::Row(&[Cell::Number(1)]);

const TWO: Planned = Planned::Row(&[Cell::Number(2)]);

const CASES: [Case<'static>; 16] = [
    // A query twice, and again when nothing is kept: then PostgreSQL alone runs it by its text.
    (
        &[Dialect::Mysql, Dialect::Sqlite],
        &[],
        "execute: 7\nexecute: 7\nsize: disabled\nexecute: 7",
        "> UPDATE a; cache UPDATE a; < UPDATE a; 1, none, 2\n\
        > UPDATE a; < UPDATE a; 1, none, 3\n\
        (), none, 3\n\
        > UPDATE a; < UPDATE a; 1, none, 5\n",
    ),
    (
        &[Dialect::Mysql, Dialect::Sqlite],
        &[],
        "execute: plain\nexecute: plain\nsize: disabled\nexecute: plain",
        "> UPDATE a; cache UPDATE a; < UPDATE a; 1, none, 2\n\
        > UPDATE a; < UPDATE a; 1, none, 3\n\
        (), none, 3\n\
        > UPDATE a; < UPDATE a; 1, none, 5\n",
    ),
    (
        &[Dialect::Pg],
        &[],
        "execute: plain\nexecute: plain\nsize: disabled\nexecute: plain",
        "> UPDATE a; cache UPDATE a; < UPDATE a; 1, none, 2\n\
        > UPDATE a; < UPDATE a; 1, none, 3\n\
        (), none, 3\n\
        > UPDATE a; < UPDATE a; 1, none, 4\n",
    ),
    (
        &[Dialect::Mysql, Dialect::Sqlite],
        &[],
        "execute: 7 unsafe\nexecute: 7 unsafe",
        "> UPDATE a; < UPDATE a; 1, none, 2\n\
        > UPDATE a; < UPDATE a; 1, none, 4\n",
    ),
    // A clash and the same size leave what is kept.
    (
        ALL,
        &[],
        "execute: 7\nexecute: 7 of another text\nsize: unbounded\nexecute: 7",
        "> UPDATE a; cache UPDATE a; < UPDATE a; 1, none, 2\n\
        > UPDATE b; < UPDATE b: QueryIdClash; QueryIdClash, none, 2\n\
        (), none, 2\n\
        > UPDATE a; < UPDATE a; 1, none, 3\n",
    ),
    (
        ALL,
        &[Planned::RefusedWith(1, 42)],
        "execute: 7\nexecute: 7",
        "> UPDATE a; cache UPDATE a; < UPDATE a: 42; DatabaseError(Unknown, 42), none, 1\n\
        > UPDATE a; cache UPDATE a; < UPDATE a; 1, none, 3\n",
    ),
    // The first has each fault that SQLite knows, and each other one of them fewer.
    (
        &[Dialect::Sqlite],
        &[],
        "execute: nothing of 70000 without changes\nexecute: nothing of 70000\nexecute: nul\nexecute: blank",
        "> ; < : QueryBuilderError(EmptyChangeset); QueryBuilderError(EmptyChangeset), none, 0\n\
        > ; < : SerializationError(BindFault { place: 0 }); \
        SerializationError(BindFault { place: 0 }), none, 0\n\
        > a\0; < a\0: InvalidCString(1); InvalidCString(1), none, 0\n\
        >  \n; <  \n: QueryBuilderError(EmptyQuery); QueryBuilderError(EmptyQuery), none, 0\n",
    ),
    (
        ALL,
        &[THREE, ONE, TWO],
        "load: select\nload by row: select\nfirst: select",
        "> SELECT a; cache SELECT a; < SELECT a; [3, 1, 2], none, 2\n\
        > SELECT a; < SELECT a; [3, 1, 2], none, 3\n\
        > SELECT a; < SELECT a; 3, none, 4\n",
    ),
    // That no row is found is told to no handler.
    (
        ALL,
        &[],
        "load: select\nload by row: select\nfirst: select",
        "> SELECT a; cache SELECT a; < SELECT a; [], none, 2\n\
        > SELECT a; < SELECT a; [], none, 3\n\
        > SELECT a; < SELECT a; NotFound, none, 4\n",
    ),
    (
        &[Dialect::Mysql],
        &[],
        "load: plain",
        "> UPDATE a; cache UPDATE a; < UPDATE a: DeserializationError(NoMetadata); \
        DeserializationError(NoMetadata), none, 1\n",
    ),
    // A row that isn't of the type is a fault of the reader, and told to no handler.
    (
        ALL,
        &[THREE, Planned::Row(&[Cell::Null])],
        "load: select",
        "> SELECT a; cache SELECT a; < SELECT a; \
        DeserializationError(UnexpectedNull { column: 0 }), none, 2\n",
    ),
    (
        ALL,
        &[THREE, Planned::Row(&[Cell::Text("a")])],
        "load: select",
        "> SELECT a; cache SELECT a; < SELECT a; \
        DeserializationError(WrongKind { column: 0 }), none, 2\n",
    ),
    (
        ALL,
        &[THREE, Planned::Row(&[])],
        "load: select",
        "> SELECT a; cache SELECT a; < SELECT a; \
        DeserializationError(UnexpectedEndOfRow), none, 2\n",
    ),
    // The first run refuses its second row. It is item 2, behind the prepare.
    (
        ALL,
        &[THREE, ONE, TWO, Planned::RowRefused(2, 2)],
        "load: select\nload: select",
        "> SELECT a; cache SELECT a; < SELECT a: 7; DatabaseError(Unknown, 7), none, 3\n\
        > SELECT a; < SELECT a; [3, 1, 2], none, 4\n",
    ),
    // PostgreSQL is asked for each row of the run though one is wanted; the others for the first alone.
    (
        &[Dialect::Pg],
        &[THREE, ONE, TWO, Planned::RowRefused(2, 2)],
        "first: select",
        "> SELECT a; cache SELECT a; < SELECT a: 7; DatabaseError(Unknown, 7), none, 3\n",
    ),
    (
        &[Dialect::Mysql, Dialect::Sqlite],
        &[THREE, ONE, TWO, Planned::RowRefused(2, 2)],
        "first: select",
        "> SELECT a; cache SELECT a; < SELECT a; 3, none, 2\n",
    ),
];

#[test]
fn queries_are_prepared_run_and_told(rt: HostRuntime) -> Result<(), Fail> {
    assert_eq!(rt; misses(rt.alloc(), &CASES)?.as_str(), "");
    Ok(())
}
