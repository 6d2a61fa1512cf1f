// What is printed of a record reads back as the record: each line is printed again as it stands.
use super::row_text::RowText;
use std::alloc::Global;
use std::process::Abort;
use std::test::Fail;
use text::Row;

fn again(rt: &impl Abort, heap: Global, line: &str) -> Result<(), Fail> {
    let Ok(row) = Row::parse(line.as_bytes()) else {
        return Err(Fail::new("not a row"));
    };
    let text = RowText(&row.record);
    let printed = format!(in heap; "x | {text}")?;
    assert!(rt; printed.as_str() == line);
    Ok(())
}

#[test]
fn usual_rows(rt: HostRuntime) -> Result<(), Fail> {
    let heap = rt.alloc();
    again(
        &rt,
        heap,
        "x | legacy 66 0F 38 | 00 | m16_32 m64 op16 | reg:xmm rm:ymm ib:8 ib:8_2nd",
    )?;
    again(
        &rt,
        heap,
        "x | legacy F3 0F 3A | DBE3 /7 rm=2 | m64 op64 addr64 default64 fwait | embed:r64 iq",
    )?;
    again(
        &rt,
        heap,
        "x | vex table=01 last=84 mask_w_l=80 mask_l=04 w1 | 58 | m16_32 addr32 | fixed:EAX moffs rel32:64",
    )?;
    again(
        &rt,
        heap,
        "x | evex table=02 p1=05 ll=40 mask_w=80 mask_ll=60 | 90 | bcst round sae mask zero mask_required n=64 nb=4 | reg:zmm32 vsib:xmm32 vvvv:k mem_sib rm:seg",
    )
}

#[test]
fn odd_rows(rt: HostRuntime) -> Result<(), Fail> {
    let heap = rt.alloc();
    again(
        &rt,
        heap,
        "x | legacy prefix=0F table1=66 table2=99 | 00012345 /-128 rm=127 | op32 addr16 bits=3FC6FFF n=0 nb=255 | - - rm:37-44",
    )?;
    again(
        &rt,
        heap,
        "x | legacy F2 | FFFFFFFF 2byte | | fixed:none fixed:200 ib:#15 rel8:#0 j3:16",
    )?;
    again(
        &rt,
        heap,
        "x | vex | 90 | | mem reg:r8 reg:r16 embed:r32 id:32to64",
    )?;
    again(
        &rt,
        heap,
        "x | evex | 0090 | | id:8to16 id:8to32 id:8to64 id:16 rel16:32",
    )
}
