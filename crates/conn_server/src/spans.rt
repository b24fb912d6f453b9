//! Places in buffers.
ghost use Rattle.std.specs.Prelude.{◌≡◌, ◌+◌, ◌-◌, ◌≤◌, ◌++◌, length, string_bytes, string_len};
ghost use Rattle.std.specs.String.{string_capacity};
ghost use Rattle.conn_server.specs.Spans.{IsTextSpan, bytes_at};

/// Where bytes stand in a buffer.
#[derive(Clone, Copy)]
pub struct Span {
    pub start: usize,
    pub len: usize,
}

/// The text at the place.
pub fn text_in(buffer: &str, span: Span) -> &str
    requires { IsTextSpan buffer.now span }
    ensures { result.now ≡ bytes_at buffer.now span }
{
    &buffer[span.start..span.start + span.len]
}

/// Adds a text, for which there is room, and answers its place.
pub fn add_text(buffer: &mut String, text: &str) -> Span
    requires { length text.now ≤ string_capacity buffer.old - string_len buffer.old }
    ensures bytes { string_bytes buffer.new ≡ string_bytes buffer.old ++ text.now }
    ensures is { bytes_at (string_bytes buffer.new) result ≡ text.now }
    ensures stands { IsTextSpan (string_bytes buffer.new) result }
    ensures room { string_capacity buffer.old - string_len buffer.old
        ≤ string_capacity buffer.new - string_len buffer.new + length text.now }
{
    let start = buffer.len();
    let _ = buffer.push_str(text);
    Span {
        start,
        len: text.len(),
    }
}
