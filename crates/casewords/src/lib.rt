// The numbers of a case's text, for the programs that run cases.
#![tactic(auto)]

ghost use Rattle.std.specs.Prelude.{◌≡◌, length, min};
ghost use Rattle.std.proofs.lemmas.List.Edits.{sets};
ghost use Rattle.tokens.specs.Listed.{tokens_of};
ghost use Rattle.casewords.specs.Numbers.{numbers_in, Next};

use facts::Taken;
use stores::store;
use tokens::{Cursor, Token};

// Whether the first token at or behind a place is a number, and the place behind it; nothing where no token is left.
fn next_number(s: &[u8], at: usize) -> Option<Taken<Option<u32>>>
    ensures { Next s.now at result }
{
    let t = (Cursor { at }).token(s);
    let start = t.start;
    let next = t.next.at;
    match t.token {
        Token::End | Token::Unclosed => None,
        Token::Word => {
            let value = numbers::hexadecimal(&s[start..next]);
            Some(Taken { value, next })
        }
        Token::Left | Token::Right | Token::Text => Some(Taken { value: None, next }),
    }
}

// The words of a text that are hexadecimal numbers, in order, as many as there is room for; as many words as the text has bytes are always room enough. What is no such word is stepped over. Answers how many stand in the slice.
pub fn numbers_of(s: &[u8], numbers: &mut [u32]) -> usize
    ensures numbers { numbers.new ≡ sets numbers.old 0 (numbers_in (tokens_of s.now)) }
    ensures count { result ≡ min (length (numbers_in (tokens_of s.now))) (length numbers.old) }
{
    let mut count: usize = 0;
    let mut at = 0;
    while let Some(token) = next_number(s, at) {
        if let Some(number) = token.value {
            store(numbers, count, number);
            count += 1;
        }
        at = token.next;
    }
    count.min(numbers.len())
}

#[test]
fn numbers_between_other_tokens(rt: HostRuntime) {
    let mut numbers: [u32; 3] = [7; 3];
    let count = numbers_of(b"(1f \"2\" x 3)", &mut numbers);
    let found = count == 2 && numbers[0] == 31 && numbers[1] == 3 && numbers[2] == 7;
    assert!(rt; found);
}
