// A whole file, judged: section by section, then what must hold at its end.
ghost use Rattle.std.specs.Prelude.{◌≡◌, length, ◌≤◌};
ghost use Rattle.std.proofs.lemmas.List.Edits.{sets};
ghost use Rattle.sizes.specs.Sizes.{file_bytes, zones};
ghost use Rattle.tokens.specs.Tokens.{token_at};
ghost use Rattle.tokens.specs.Listed.{tokens_from};
ghost use Rattle.layout.specs.Read.{tokens_answer, answer_of};
ghost use Rattle.layout.specs.Replies.{shown};
ghost use Rattle.sections.specs.Sections.{room_all};
ghost use Rattle.endings.specs.Endings.{verdict};
ghost use Rattle.survey.specs.Before.{nothing};
ghost use Rattle.survey.specs.Sites.{token_sites, places_of};

use endings::last_by_lists;
use kept::Lists;
use layout::{Accepted, Refusal, Refused};
use notes::{keep, noted};
use sections::section_by_lists;
use sofar::{Room, Seen, State};
use tokens::{Cursor, Step, Token};

// What reading a file answers, and the place behind the `(` of each regular section that was met, in order.
#[derive(Clone, Copy)]
pub struct Located {
    pub reply: Result<Accepted, Refused>,
    pub places: [u32; 64],
}

// The first token at or behind a place. A `(` is known by its byte, and mostly stands there.
fn token_at(s: &[u8], at: usize) -> Step
    ensures { result ≡ token_at s.now at }
{
    let start = (Cursor { at }).start(s);
    if start < s.len() {
        let b = s[start];
        if b == b'(' {
            let behind = start + 1;
            return Step {
                token: Token::Left,
                start,
                next: Cursor { at: behind },
            };
        }
    }
    (Cursor { at }).token(s)
}

// What is known before the first section.
fn nothing() -> State
    ensures { result ≡ nothing }
{
    let unseen = Seen {
        declared: false,
        total: 0,
    };
    State {
        dim: 0,
        nodes: unseen,
        cells: unseen,
        faces: unseen,
        zones: 0,
    }
}

// The sections of a file that is not too long, from its first byte. The four slices hold what was met of the regular ones.
// No `for`: a section begins where the one before it ended.
fn file_from(
    s: &[u8],
    room: Room,
    ids: &mut [u32],
    firsts: &mut [u32],
    lasts: &mut [u32],
    places: &mut [u32],
) -> Result<Accepted, Refused>
    requires { (length s.now ≤ file_bytes) × ((length ids.old ≡ zones) × ((length firsts.old ≡ zones) × (length lasts.old ≡ zones))) }
    ensures { (result ≡ verdict (tokens_answer (length s.now) (room_all room) (tokens_from s.now 0))) × (places.new ≡ sets places.old 0 (token_sites (length s.now) (room_all room) (tokens_from s.now 0))) }
{
    let mut x = nothing();
    let mut c: usize = 0;
    let mut k: u32 = 0;
    loop {
        let t = token_at(s, c);
        let kind = t.token;
        let start = t.start;
        let next = t.next.at;
        let lists = Lists { ids, firsts, lasts };
        let Token::Left = kind else {
            return last_by_lists(kind, start, x, lists, k, s.len());
        };
        k += 1;
        match section_by_lists(s, next, x, room, lists) {
            Err(bad) => {
                return Err(Refused {
                    why: bad.why,
                    section: k,
                    offset: bad.offset,
                });
            }
            Ok(met) => {
                let z = x.zones;
                let place = next as u32;
                keep(ids, firsts, lasts, places, z, met.value, place);
                x = noted(x, met.value);
                c = met.next;
            }
        }
    }
}

// Judges a file: what reading it into tables with this room answers, and where its regular sections stand. No table is touched.
pub fn locate(s: &[u8], room: Room) -> Located
    ensures { (shown result.reply ≡ shown (verdict (answer_of (room_all room) s.now))) × (result.places ≡ places_of (room_all room) s.now) }
{
    let mut places: [u32; 64] = [0; 64];
    let too_long = sizes::FILE_BYTES < s.len();
    if too_long {
        let reply = Err(Refused {
            why: Refusal::TooLong,
            section: 0,
            offset: 0,
        });
        return Located { reply, places };
    }
    let mut ids: [u32; 64] = [0; 64];
    let mut firsts: [u32; 64] = [0; 64];
    let mut lasts: [u32; 64] = [0; 64];
    let reply = file_from(s, room, &mut ids, &mut firsts, &mut lasts, &mut places);
    Located { reply, places }
}

// The answer alone.
pub fn survey(s: &[u8], room: Room) -> Result<Accepted, Refused>
    ensures { shown result ≡ shown (verdict (answer_of (room_all room) s.now)) }
{
    locate(s, room).reply
}
