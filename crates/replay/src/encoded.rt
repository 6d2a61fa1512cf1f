use encoder::{Encoded, encode};
use fault::MakingFault;
use instruction::Instruction;
use policy::port_policy;
use record::Record;
use text::Case;

// a case's encoding, or why its record or its instruction is not made
pub fn encoded(case: &Case) -> Result<Encoded, MakingFault> {
    let record = Record::new(case.record)?;
    let instruction = Instruction::new(&case.instruction)?;
    Ok(encode(
        &port_policy(),
        case.settings,
        u8::try_from(case.mode).unwrap_or(0),
        case.rip,
        &record,
        &instruction,
    ))
}
