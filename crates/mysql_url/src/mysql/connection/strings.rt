//! Texts for a library of C. There a text ends at its first NUL, so none may stand in it.
ghost use Rattle.std.specs.Prelude.{◌≡◌, ◌==◌, option_copied};
ghost use Rattle.std.specs.List.{position};
ghost use Rattle.mysql_url.specs.Outcomes.{GivesOrMemory};
ghost use Rattle.mysql_url.specs.Strings.{c_string, c_string_if, credential, password_of};

use conn_model::Text;
use conn_result::{ConnectionError, ConnectionResult, UrlFault};
use percent_encoding::{DecodeError, percent_decode};
use std::alloc::Global;
use url::Url;

/// The place of the first NUL.
fn first_nul(bytes: &[u8]) -> Option<usize>
    ensures { result ≡ position (λ b. b == 0) bytes.now }
{
    bytes.iter().position(|b| *b == 0)
}

/// A copy of the text, unless it has a NUL.
fn copy_for_c(alloc: Global, text: &str) -> ConnectionResult<Text>
    ensures { GivesOrMemory result (c_string text.now) }
{
    if let Some(place) = first_nul(text.as_bytes()) {
        return Err(ConnectionError::InvalidCString(place));
    }
    match Text::new(alloc, text) {
        Ok(copy) => Ok(copy),
        Err(_) => Err(ConnectionError::OutOfMemory),
    }
}

/// The text, where there is one, unless it has a NUL.
pub fn text_for_c(alloc: Global, text: Option<Text>) -> ConnectionResult<Option<Text>>
    ensures { GivesOrMemory result (c_string_if text) }
{
    let Some(text) = text else {
        return Ok(None);
    };
    match copy_for_c(alloc, text.as_str()) {
        Ok(copy) => Ok(Some(copy)),
        Err(e) => Err(e),
    }
}

/// What a user name or a password of a URL stands for.
pub fn credential_in(alloc: Global, text: &str) -> ConnectionResult<Text>
    ensures { GivesOrMemory result (credential text.now) }
{
    match percent_decode(text.as_bytes()).decode_utf8(alloc) {
        Ok(text) => copy_for_c(alloc, text.as_str()),
        Err(DecodeError::Utf8(_)) => {
            Err(ConnectionError::InvalidConnectionUrl(UrlFault::NotUtf8))
        }
        Err(DecodeError::OutOfMemory) => Err(ConnectionError::OutOfMemory),
    }
}

/// The password of the URL. An empty one is none, as the URL Standard writes no colon before it.
pub fn password_in(alloc: Global, url: &Url) -> ConnectionResult<Option<Text>>
    ensures { GivesOrMemory result (password_of url.now.password) }
{
    let Some(text) = url.password() else {
        return Ok(None);
    };
    match credential_in(alloc, text) {
        Ok(password) => Ok(Some(password)),
        Err(e) => Err(e),
    }
}
