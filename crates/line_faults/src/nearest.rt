//! The word that may be meant by one that is none.
use conn_script::Word;

/// The words of setup lines.
const SETUP_WORDS: [&str; 6] = ["url", "refuse", "refuserow", "noconnect", "query", "row"];

/// How many bytes the two have alike at their begins.
fn alike_in_front(a: &str, b: &str) -> usize {
    a.bytes().zip(b.bytes()).take_while(|p| p.0 == p.1).count()
}

/// How many bytes the two have alike at their ends.
fn alike_behind(a: &str, b: &str) -> usize {
    a.bytes()
        .rev()
        .zip(b.bytes().rev())
        .take_while(|p| p.0 == p.1)
        .count()
}

/// Whether the two differ in the case of letters, or in one letter, or where two of one word stand beside each other.
fn is_near(a: &str, b: &str) -> bool {
    if a.eq_ignore_ascii_case(b) {
        return true;
    }
    let alike = alike_in_front(a, b).saturating_add(alike_behind(a, b));
    let longest = a.len().max(b.len());
    let may_differ = if a.len() == b.len() && longest > 4 {
        2
    } else {
        1
    };
    longest > 2 && alike.saturating_add(may_differ) >= longest
}

/// The first word of a line that is near to this one.
pub fn nearest_word(word: &str) -> Option<&'static str> {
    for known in Word::ALL {
        if is_near(word, known.name()) {
            return Some(known.name());
        }
    }
    for known in SETUP_WORDS {
        if is_near(word, known) {
            return Some(known);
        }
    }
    None
}

/// The command of this name.
pub fn word_of(name: &str) -> Option<Word> {
    for word in Word::ALL {
        if name == word.name() {
            return Some(word);
        }
    }
    None
}
