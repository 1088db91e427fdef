// Tokens of a text mesh: a cursor by value, and what stands at it.
#![tactic(auto)]

ghost use Rattle.std.specs.Prelude.{◌≡◌};
ghost use Rattle.tokens.specs.Tokens.{is_blank, class_of, goes_on, run_at, start_of, mark_of, ends_word, step_of, text_to, token_of, token_at};

// What a byte is to the tokeniser.
#[derive(Clone, Copy, Debug, PartialEq, Eq)]
pub enum Class {
    Blank,
    Left,
    Right,
    Quote,
    Other,
}

// What a run of bytes is made of.
#[derive(Clone, Copy, Debug, PartialEq, Eq)]
pub enum Run {
    Blanks,
    Word,
    Text,
    Plain,
}

// What stands at a place of the file. An unclosed string is a token of its own sort.
#[derive(Clone, Copy, Debug, PartialEq, Eq)]
pub enum Token {
    Left,
    Right,
    Text,
    Word,
    Unclosed,
    End,
}

// A place in the file. Any number is allowed, one past the end too.
#[derive(Clone, Copy, Debug, Default, PartialEq, Eq)]
pub struct Cursor {
    pub at: usize,
}

// A token, where it starts, and the cursor behind it.
#[derive(Clone, Copy, Debug, PartialEq, Eq)]
pub struct Step {
    pub token: Token,
    pub start: usize,
    pub next: Cursor,
}

pub fn is_blank(b: u8) -> bool
    ensures { result ≡ is_blank b }
{
    // Not by `matches!`: that is compiled to more branches.
    b == b' ' || b == b'\t' || b == b'\n' || b == b'\r'
}

fn class_of(b: u8) -> Class
    ensures { result ≡ class_of b }
{
    if is_blank(b) {
        return Class::Blank;
    }
    // Not by `match`, as above.
    if b == b'(' {
        return Class::Left;
    }
    if b == b')' {
        return Class::Right;
    }
    if b == b'"' {
        return Class::Quote;
    }
    Class::Other
}

fn goes_on(k: Run, c: Class) -> bool
    ensures { result ≡ goes_on k c }
{
    match k {
        Run::Blanks => matches!(c, Class::Blank),
        Run::Word => matches!(c, Class::Other),
        Run::Text => !matches!(c, Class::Quote),
        Run::Plain => matches!(c, Class::Blank | Class::Other),
    }
}

// Where a run that starts at `at` ends.
fn run_end(s: &[u8], at: usize, k: Run) -> usize
    ensures { result ≡ run_at k s.now at }
{
    for i in at..s.len() {
        if !goes_on(k, class_of(s[i])) {
            return i;
        }
    }
    at.max(s.len())
}

fn step_of(token: Token, start: usize, at: usize) -> Step
    ensures { result ≡ step_of token start at }
{
    let next = Cursor { at };
    Step { token, start, next }
}

impl Cursor {
    pub fn new() -> Self
        ensures { result.at ≡ 0 }
    {
        Cursor { at: 0 }
    }

    // Where the first token at or behind the cursor starts; without one, the file's length or the cursor's own place past it.
    pub fn start(self, s: &[u8]) -> usize
        ensures { result ≡ start_of s.now self.at }
    {
        let at = self.at;
        run_end(s, at, Run::Blanks)
    }

    // The first parenthesis or quote at or behind the cursor: what words stand before it is not looked at. Without one, as `start`.
    pub fn mark(self, s: &[u8]) -> usize
        ensures { result ≡ mark_of s.now self.at }
    {
        let at = self.at;
        run_end(s, at, Run::Plain)
    }

    // Whether a word that reaches the cursor ends there.
    pub fn ends_word(self, s: &[u8]) -> bool
        ensures { result ≡ ends_word s.now self.at }
    {
        let at = self.at;
        if at < s.len() {
            let c = class_of(s[at]);
            return !goes_on(Run::Word, c);
        }
        true
    }

    // The first token at or behind the cursor. At and past the end of the file it is the end, whose place is the file's length.
    pub fn token(self, s: &[u8]) -> Step
        ensures { result ≡ token_at s.now self.at }
    {
        let at = self.at;
        let size = s.len();
        let start = run_end(s, at, Run::Blanks);
        if size <= start {
            return step_of(Token::End, size, size);
        }
        let inside = start + 1;
        let c = class_of(s[start]);
        match c {
            Class::Left => step_of(Token::Left, start, inside),
            Class::Right => step_of(Token::Right, start, inside),
            Class::Quote => {
                let end = run_end(s, inside, Run::Text);
                if end < size {
                    let behind = end + 1;
                    return step_of(Token::Text, start, behind);
                }
                step_of(Token::Unclosed, start, end)
            }
            Class::Other => {
                let end = run_end(s, inside, Run::Word);
                step_of(Token::Word, start, end)
            }
            // Never: the run of blanks has ended here.
            Class::Blank => step_of(Token::Word, start, inside),
        }
    }
}
