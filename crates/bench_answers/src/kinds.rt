// The dictionaries that are asked.

/// How a dictionary's rows are kept, and what they are.
#[derive(Clone, Copy)]
pub enum Kind {
    Flat,
    Hashed,
    Complex,
    Range,
    Ip,
    /// Hashed rows of a number and a text.
    Texts,
}

pub fn kind_of(word: &str) -> Kind {
    match word {
        "flat" => Kind::Flat,
        "complex" => Kind::Complex,
        "range" => Kind::Range,
        "ip" => Kind::Ip,
        "texts" => Kind::Texts,
        _ => Kind::Hashed,
    }
}

/// The statement that defines the dictionary.
pub fn statement(kind: Kind) -> &'static [u8] {
    match kind {
        Kind::Flat => {
            b"CREATE DICTIONARY d (k UInt64, x UInt64) PRIMARY KEY k
              SOURCE(EXECUTABLE(command 'true' format 'TSV')) LAYOUT(FLAT(MAX_ARRAY_SIZE 4194304));"
        }
        Kind::Hashed => {
            b"CREATE DICTIONARY d (k UInt64, x UInt64) PRIMARY KEY k
              SOURCE(EXECUTABLE(command 'true' format 'TSV')) LAYOUT(HASHED());"
        }
        Kind::Complex => {
            b"CREATE DICTIONARY d (k String, l UInt8, x UInt64) PRIMARY KEY k, l
              SOURCE(EXECUTABLE(command 'true' format 'TSV')) LAYOUT(COMPLEX_KEY_HASHED());"
        }
        Kind::Range => {
            b"CREATE DICTIONARY d (k UInt64, a UInt32, b UInt32, x UInt64) PRIMARY KEY k
              SOURCE(EXECUTABLE(command 'true' format 'TSV')) LAYOUT(RANGE_HASHED()) RANGE(MIN a MAX b);"
        }
        Kind::Ip => {
            b"CREATE DICTIONARY d (k String, x UInt64) PRIMARY KEY k
              SOURCE(EXECUTABLE(command 'true' format 'TSV')) LAYOUT(IP_TRIE());"
        }
        Kind::Texts => {
            b"CREATE DICTIONARY d (k UInt64, x String) PRIMARY KEY k
              SOURCE(EXECUTABLE(command 'true' format 'TSV')) LAYOUT(HASHED());"
        }
    }
}
