// A whole row.
ghost use Rattle.std.specs.Prelude.{◌≡◌};
ghost use Rattle.text.specs.Rows.{empty_draft, finish_of, draft_of, row_of};

use super::code_part::{CodePart, FlagPart};
use super::draft::{Draft, Section};
use super::row::{Row, Span};
use super::row_fault::{RowFault, Wanted};
use super::word::{word_begin, word_end};
use machine::CodeSize;
use record::{EncFlags3, Head, LegacyHead, Operands, RawRecord};

impl Draft {
    // nothing said yet
    fn new() -> Draft
        ensures { result ≡ empty_draft }
    {
        Draft {
            section: Section::Name,
            words: 0,
            name: Span { from: 0, to: 0 },
            head: Head::Legacy(LegacyHead::default()),
            code: CodePart {
                op_code: 0,
                is_2byte: false,
                group: -1,
                rm_group: -1,
            },
            flags: FlagPart {
                bits: 0,
                op_size: CodeSize::Unknown,
                addr_size: CodeSize::Unknown,
                n: 1,
                nb: 1,
            },
            operands: [None; 5],
        }
    }

    // the row, where all parts are there at the column of the line's end
    fn finish(self, column: usize) -> Result<Row, RowFault>
        ensures { result ≡ finish_of self column }
    {
        if !matches!(self.section, Section::Operands) {
            return Err(RowFault {
                column,
                wanted: Wanted::Bar,
            });
        }
        let [op0, op1, op2, op3, op4] = self.operands;
        let record = RawRecord {
            head: self.head,
            op_code: self.code.op_code,
            group_index: self.code.group,
            rm_group_index: self.code.rm_group,
            enc_flags3: EncFlags3 {
                bits: self.flags.bits,
            },
            op_size: self.flags.op_size,
            addr_size: self.flags.addr_size,
            is_2byte_opcode: self.code.is_2byte,
            n: self.flags.n,
            nb: self.flags.nb,
            operands: Operands {
                op0,
                op1,
                op2,
                op3,
                op4,
            },
        };
        Ok(Row {
            name: self.name,
            record,
        })
    }
}

// all that the words of a line say
#[tactic(auto, using(crate::proofs::Wording::word_err, crate::proofs::Wording::words_end))]
fn drafted(line: &[u8]) -> Result<Draft, RowFault>
    ensures { result ≡ draft_of line.now }
{
    let mut draft = Draft::new();
    // by places of the line, since names and faults go by them
    let mut at = word_begin(line, 0);
    while at < line.len() {
        let to = word_end(line, at);
        draft.step(&line[at..to], Span { from: at, to })?;
        at = word_begin(line, to);
    }
    Ok(draft)
}

impl Row {
    // the row of a line `name | head | opcode | flags | operands`
    pub fn parse(line: &[u8]) -> Result<Row, RowFault>
        ensures { result ≡ row_of line.now }
    {
        let draft = drafted(line)?;
        draft.finish(line.len() + 1)
    }
}
