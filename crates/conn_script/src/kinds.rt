//! The kinds of refusals by their names.
ghost use Rattle.std.specs.Prelude.{◌≡◌};
ghost use Rattle.conn_script.specs.Spelling.{kind_named, kind_text};

use conn_result::DatabaseErrorKind;

/// All of them.
const KINDS: [DatabaseErrorKind; 11] = [
    DatabaseErrorKind::UniqueViolation,
    DatabaseErrorKind::ForeignKeyViolation,
    DatabaseErrorKind::UnableToSendCommand,
    DatabaseErrorKind::SerializationFailure,
    DatabaseErrorKind::ReadOnlyTransaction,
    DatabaseErrorKind::NotNullViolation,
    DatabaseErrorKind::CheckViolation,
    DatabaseErrorKind::ClosedConnection,
    DatabaseErrorKind::Unknown,
    DatabaseErrorKind::RestrictViolation,
    DatabaseErrorKind::ExclusionViolation,
];

/// The name of a kind, in scripts and in reports.
pub fn kind_name(kind: DatabaseErrorKind) -> &'static str
    ensures { result.now ≡ kind_text kind }
{
    match kind {
        DatabaseErrorKind::UniqueViolation => "UniqueViolation",
        DatabaseErrorKind::ForeignKeyViolation => "ForeignKeyViolation",
        DatabaseErrorKind::UnableToSendCommand => "UnableToSendCommand",
        DatabaseErrorKind::SerializationFailure => "SerializationFailure",
        DatabaseErrorKind::ReadOnlyTransaction => "ReadOnlyTransaction",
        DatabaseErrorKind::NotNullViolation => "NotNullViolation",
        DatabaseErrorKind::CheckViolation => "CheckViolation",
        DatabaseErrorKind::ClosedConnection => "ClosedConnection",
        DatabaseErrorKind::Unknown => "Unknown",
        DatabaseErrorKind::RestrictViolation => "RestrictViolation",
        DatabaseErrorKind::ExclusionViolation => "ExclusionViolation",
    }
}

/// The kind of this name.
pub fn kind_of(name: &str) -> Option<DatabaseErrorKind>
    ensures { result ≡ kind_named name.now }
{
    for kind in KINDS {
        if name == kind_name(kind) {
            return Some(kind);
        }
    }
    None
}
