// A stored vector: bytes, and what another implementation says of them.

// What bytes are of.
#[derive(Clone, Copy)]
pub enum Kind {
    Check,
    Cell,
    Frame,
    Upstream,
}

impl Kind {
    fn named(name: &str) -> Option<Kind> {
        match name {
            "crc" => Some(Kind::Check),
            "cell" => Some(Kind::Cell),
            "frame" => Some(Kind::Frame),
            "up" => Some(Kind::Upstream),
            _ => None,
        }
    }
}

#[derive(Clone, Copy)]
pub struct Vector<'a> {
    // none where there is no such kind
    pub kind: Option<Kind>,
    pub digits: &'a str,
    // the readable text, and the bytes written again
    pub text: &'a str,
    pub again: &'a str,
}

impl<'a> From<&'a str> for Vector<'a> {
    fn from(line: &'a str) -> Vector<'a> {
        let mut parts = line.split('\t');
        Vector {
            kind: parts.next().and_then(Kind::named),
            digits: parts.next().unwrap_or(""),
            text: parts.next().unwrap_or(""),
            again: parts.next().unwrap_or(""),
        }
    }
}
