// Answers as words, written as far as the slice that is lent for them has room.
ghost use Rattle.std.specs.Prelude.{◌≡◌};
ghost use Rattle.std.proofs.lemmas.List.Edits.{sets};
ghost use Rattle.layout.specs.Replies.{shown};
ghost use Rattle.audit.specs.Audit.{values_of};
ghost use Rattle.writer.specs.Writer as Writer;
ghost use Rattle.answers.specs.Words.{read_words, audit_words, write_words};

use audit::Audited;
use layout::{Accepted, Refused};
use stores::copy_into;

// The reader's answer: its number, and the other values as words.
pub fn answer_read(reply: Result<Accepted, Refused>, answer: &mut [u64]) -> u32
    ensures { (result ≡ (shown reply).number) × (answer.new ≡ sets answer.old 0 (read_words (shown reply))) }
{
    match reply {
        Err(refused) => {
            let section = u64::from(refused.section);
            let offset = refused.offset as u64;
            let words = [section, offset, 0, 0, 0, 0, 0];
            copy_into(&words, answer);
            numbering::number_of(refused.why)
        }
        Ok(mesh) => {
            let dim = u64::from(mesh.dim);
            let nodes = u64::from(mesh.nodes);
            let faces = u64::from(mesh.faces);
            let cells = u64::from(mesh.cells);
            let zones = u64::from(mesh.zones);
            let words = [0, 0, dim, nodes, faces, cells, zones];
            copy_into(&words, answer);
            0
        }
    }
}

// The audit's answer: its number, and the other values as words.
pub fn answer_audit(audited: Result<Audited, audit::Refusal>, answer: &mut [u64]) -> u32
    ensures { (result ≡ (values_of audited).number) × (answer.new ≡ sets answer.old 0 (audit_words (values_of audited))) }
{
    match audited {
        Err(why) => {
            copy_into(&[0, 0], answer);
            u32::from(why)
        }
        Ok(done) => {
            let total = u64::from(done.total);
            let bytes = done.bytes as u64;
            copy_into(&[total, bytes], answer);
            0
        }
    }
}

// The writer's answer: its number, and the length of the text.
pub fn answer_write(written: Result<usize, writer::Refusal>, answer: &mut [u64]) -> u32
    ensures { (result ≡ (Writer.values_of written).number) × (answer.new ≡ sets answer.old 0 (write_words (Writer.values_of written))) }
{
    match written {
        Err(why) => {
            copy_into(&[0], answer);
            u32::from(why)
        }
        Ok(bytes) => {
            copy_into(&[bytes as u64], answer);
            0
        }
    }
}
