ghost use Rattle.std.specs.Prelude.{◌≡◌, ◌≤◌, length, map};
ghost use Rattle.mz_tree.specs.Spellings.{key_texts, mark_texts, number_in};

const KEYS: [&[u8]; 28] = [
    b"data",
    b"mutable",
    b"adopts",
    b"sig",
    b"fun",
    b"consumes",
    b"let",
    b"if",
    b"then",
    b"else",
    b"match",
    b"giving",
    b"result",
    b"retag",
    b"from",
    b"to",
    b"give",
    b"take",
    b"newlock",
    b"lock",
    b"locked",
    b"acquire",
    b"release",
    b"spawn",
    b"print",
    b"int",
    b"unknown",
    b"dynamic",
];

const MARKS: [&[u8]; 24] = [
    b"{", b"}", b"(", b")", b";", b":", b",", b".", b"=", b"*", b"+", b"-", b"/", b"%", b"<-",
    b"->", b"==", b"!=", b"<", b"<=", b">", b">=", b"@", b"|",
];

/// The number of a text in a table.
fn number_of(table: &[&[u8]], text: &[u8]) -> Option<u8>
    requires { length table.now ≤ 256 }
    ensures { result ≡ number_in (map (λ word. word.now) table.now) text.now }
{
    for (number, word) in table.iter().enumerate() {
        if text == *word {
            return Some(number as u8);
        }
    }
    None
}

/// The number of a key.
pub fn key(text: &[u8]) -> Option<u8>
    ensures { result ≡ number_in key_texts text.now }
{
    number_of(&KEYS, text)
}

/// The number of a mark.
pub fn mark(text: &[u8]) -> Option<u8>
    ensures { result ≡ number_in mark_texts text.now }
{
    number_of(&MARKS, text)
}
