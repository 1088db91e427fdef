// A coordinate: mostly one look at its bytes finds it. Whatever else stands there is left to the step that takes the token apart.
ghost use Rattle.std.specs.Prelude.{length};
ghost use Rattle.tokens.specs.Listed.{tokens_from};
ghost use Rattle.layout.specs.Reading.{pair_word};
ghost use Rattle.steps.specs.Views.{PairAt};

use super::step::pair_by_token;
use decimals::Decimal;
use facts::Taken;
use spots::Bad;

pub fn pair_at(s: &[u8], at: usize) -> Result<Taken<Decimal>, Bad>
    ensures { PairAt s.now at result (pair_word (length s.now) (tokens_from s.now at)) }
{
    let Some(read) = pairs::quick_lead(s, at) else {
        return pair_by_token(s, at);
    };
    Ok(read)
}
