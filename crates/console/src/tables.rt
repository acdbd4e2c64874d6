// The table: what it holds is told; the builder and a hand change it.
use crate::print;
use commands::ToTable;
use std::io;
use table::Table;

pub fn covers(rt: &impl Print, t: Table, part: u32, address: u32) -> io::Result<()> {
    let answer = t.covers_addr(part, address);
    print::yes(rt, answer, table::yes_of(answer))
}

pub fn entry(rt: &impl Print, t: &Table, at: u32) -> io::Result<()> {
    let e = t.cell(at);
    println!(rt;
        "enabled={} base={} size={} write={}",
        u32::from(e.enabled),
        e.base,
        e.size,
        u32::from(e.writable)
    )
}

// The answer to a change of this table.
pub fn change(rt: &impl Print, k: ToTable, t: Table) -> io::Result<()> {
    match k {
        ToTable::Add(part, q) => print::number(rt, &t.try_add_region(part, q)),
        ToTable::Empty | ToTable::Hand(..) => print::done(rt),
    }
}
