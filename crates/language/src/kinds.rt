// The kinds of tokens, for the code; `specs/Tokens.antt` has them for the definitions. They are numbers and no enum: words
// of lent memory, and who asks for something of a kind is answered at any word that may stand there (`kind_of`,
// `Children`); an enum would ask of every reader that the word is one of these.

// What stands past the last token; a name; a number.
pub const PAST: u32 = 0;

pub const NAME: u32 = 1;

pub const NUMBER: u32 = 2;

// The reserved words.
pub const DEF: u32 = 3;

pub const LET: u32 = 4;

pub const IN: u32 = 5;

pub const WHILE: u32 = 6;

pub const DO: u32 = 7;

pub const END: u32 = 8;

pub const IF: u32 = 9;

pub const THEN: u32 = 10;

pub const ELSE: u32 = 11;

pub const REF: u32 = 12;

pub const NOT: u32 = 13;

pub const INT: u32 = 14;

pub const BOOL: u32 = 15;

pub const TRUE: u32 = 16;

pub const FALSE: u32 = 17;

pub const UNIT: u32 = 18;

pub const TT: u32 = 19;

pub const FLOAT: u32 = 20;

// The marks.
pub const PLUS: u32 = 21;

pub const MINUS: u32 = 22;

pub const STAR: u32 = 23;

pub const SLASH: u32 = 24;

pub const AND: u32 = 25;

pub const OR: u32 = 26;

pub const LESS: u32 = 27;

pub const EQUAL: u32 = 28;

pub const BECOMES: u32 = 29;

pub const IS: u32 = 30;

pub const BANG: u32 = 31;

pub const SEMI: u32 = 32;

pub const COMMA: u32 = 33;

pub const COLON: u32 = 34;

pub const LPAR: u32 = 35;

pub const RPAR: u32 = 36;

pub const LBRACE: u32 = 37;

pub const RBRACE: u32 = 38;

// A number with a point; FLOAT is the word.
pub const FLOAT_NUMBER: u32 = 39;

// The words and marks of counted loops; 40 to 42 are kinds of rows.
pub const FOR: u32 = 43;

pub const BY: u32 = 44;

pub const UPTO: u32 = 45;

pub const THROUGH: u32 = 46;
