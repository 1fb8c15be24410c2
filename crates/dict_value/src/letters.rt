// The bytes that texts set apart, by name.

pub const NUL: u8 = 0;

pub const BELL: u8 = 7;

pub const BACKSPACE: u8 = 8;

pub const TAB: u8 = b'\t';

pub const LINE_FEED: u8 = b'\n';

pub const VERTICAL_TAB: u8 = 11;

pub const FORM_FEED: u8 = 12;

pub const CARRIAGE_RETURN: u8 = b'\r';

pub const DOUBLE_QUOTE: u8 = b'"';

pub const SINGLE_QUOTE: u8 = b'\'';

pub const COMMA: u8 = b',';

pub const BACKSLASH: u8 = b'\\';

pub const DIGIT_0: u8 = b'0';

pub const DIGIT_9: u8 = b'9';

pub const CAPITAL_A: u8 = b'A';

pub const CAPITAL_F: u8 = b'F';

pub const CAPITAL_N: u8 = b'N';

pub const LETTER_A: u8 = b'a';

pub const LETTER_B: u8 = b'b';

pub const LETTER_F: u8 = b'f';

pub const LETTER_N: u8 = b'n';

pub const LETTER_R: u8 = b'r';

pub const LETTER_T: u8 = b't';

pub const LETTER_V: u8 = b'v';

pub const LETTER_X: u8 = b'x';
