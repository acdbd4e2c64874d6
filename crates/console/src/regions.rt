// Regions and lists of them: asked and told, nothing is kept.
use crate::print;
use region::{Fault, Range};
use std::io;

pub fn pow2(rt: &impl Print, n: u32) -> io::Result<()> {
    println!(rt; "yes={}", u32::from(region::is_power_of_two(n)))
}

pub fn region(rt: &impl Print, r: Range) -> io::Result<()> {
    print::number(rt, &region::validate_region(r.base, r.size))
}

pub fn overlap(rt: &impl Print, a: Range, b: Range) -> io::Result<()> {
    let answer = region::regions_overlap(a, b);
    print::yes(rt, answer, region::yes_of(answer))
}

pub fn records(rt: &impl Print, text: &[u8], count: u32) -> io::Result<()> {
    let given = commands::record_count(text);
    match lent::validate_given(commands::records_of(text), given, count) {
        Ok(()) => print::done(rt),
        Err(fault @ Fault::Short) => println!(rt; "no={fault}"),
        Err(fault @ Fault::Unsound { at, .. }) => println!(rt; "no={fault} at={at}"),
        Err(fault @ Fault::Pair { i, j }) => println!(rt; "no={fault} i={i} j={j}"),
    }
}
