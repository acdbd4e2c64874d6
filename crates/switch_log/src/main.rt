// Switches an MPU of zeros to a partition that was granted two regions, and writes the switch's log. A refusal writes its number alone.
#![tactic(auto)]

use device::Mpu;
use refusal::Refusal;
use std::io::{self, Write};
use switch::Switch;
use table::{Request, Table};

const PART: u32 = 1;

fn main(rt: HostRuntime) -> io::Result<()> {
    match switched() {
        Ok(s) => write_log(&rt, s),
        Err(why) => println!(rt; "no={why}"),
    }
}

fn switched() -> Result<Switch, Refusal> {
    let data = Request {
        base: 536870912,
        size: 1024,
        writable: true,
    };
    let code = Request {
        base: 134217728,
        size: 65536,
        writable: false,
    };
    let t = Table::new()
        .try_add_region(PART, data)?
        .try_add_region(PART, code)?;
    Ok(switch::switch_to_partition(Mpu::default(), t, PART)?)
}

// Stays: as `log` of the console's `print`: two programs; a library of ours that writes the text of 600 bytes would need a handle, and be no plainer.
fn write_log(rt: &impl Print, s: Switch) -> io::Result<()> {
    let mut text = [0u8; journal::LONGEST_LOG];
    match journal::put_log(&mut text, 0, s.log) {
        Some(n) => io::writer(rt).write_all(&text[..n]),
        None => Ok(()),
    }
}
