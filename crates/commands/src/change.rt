// What a command does to a table and a switch.
ghost use Rattle.std.specs.Prelude.{◌≡◌, ltb, set};
ghost use Rattle.laws.specs.Pick.{pick};
ghost use Rattle.commands.specs.Obeyed.{table_after, mpu_after, switch_after, obeyed, nothing_held};

use crate::{Command, ToMpu, ToSwitch, ToTable};
use device::{Mpu, Write};
use refusal::settled;
use sequence::WRITES;
use switch::{Progress, Switch};
use table::Table;

// What the commands work on.
#[derive(Clone, Copy)]
pub struct Console {
    pub table: Table,
    pub switch: Switch,
}

// The empty table, and a switch of zeros.
pub fn nothing_held() -> Console
    ensures { result ≡ nothing_held }
{
    Console {
        table: Table::new(),
        switch: switch::idle(Mpu::default()),
    }
}

// The console after a command; ws are the ten triples that stand beside it.
pub fn obey(c: Console, k: Command, ws: [Write; WRITES]) -> Console
    ensures { result ≡ obeyed c k ws }
{
    match k {
        Command::Bad | Command::Silent | Command::Tell(_) => c,
        Command::Table(x) => Console {
            table: change_table(c.table, x),
            ..c
        },
        Command::Mpu(x) => {
            let mpu = change_mpu(c.switch.mpu, x, ws);
            Console {
                switch: Switch { mpu, ..c.switch },
                ..c
            }
        }
        Command::Switch(x) => Console {
            switch: change_switch(c, x),
            ..c
        },
    }
}

fn change_table(t: Table, k: ToTable) -> Table
    ensures { result ≡ table_after t k }
{
    match k {
        ToTable::Empty => Table::new(),
        ToTable::Add(part, q) => settled(t.try_add_region(part, q)),
        ToTable::Hand(at, e) => Table {
            base: put(t.base, at, e.base),
            size: put(t.size, at, e.size),
            enabled: put(t.enabled, at, e.enabled),
            writable: put(t.writable, at, e.writable),
        },
    }
}

fn change_mpu(m: Mpu, k: ToMpu, ws: [Write; WRITES]) -> Mpu
    ensures { result ≡ mpu_after m k ws }
{
    match k {
        ToMpu::Reg(w) => settled(lent::write_through(m, w)),
        ToMpu::HandSlot(at, p) => Mpu {
            slots: put(m.slots, at, p),
            ..m
        },
        ToMpu::HandCtrl(control) => Mpu { control, ..m },
        ToMpu::Apply => settled(switch::apply_program(m, ws).map(|done| done.mpu)),
    }
}

fn change_switch(c: Console, k: ToSwitch) -> Switch
    ensures { result ≡ switch_after c.table c.switch k }
{
    match k {
        ToSwitch::Start(part) => settled(switch::start(c.switch.mpu, c.table, part)),
        ToSwitch::Step => match switch::step(c.switch) {
            Ok(Progress::Wrote(s) | Progress::Finished(s)) => s,
            Err(e) => e.held,
        },
        ToSwitch::Whole(part) => {
            settled(switch::switch_to_partition(c.switch.mpu, c.table, part))
        }
        ToSwitch::HandTriple(at, w) => Switch {
            writes: put(c.switch.writes, at, w),
            ..c.switch
        },
        ToSwitch::HandAt(position) => Switch {
            position,
            ..c.switch
        },
    }
}

// The array with x at a place; as it was where there is no such place.
fn put<T: Copy, const N: usize>(xs: [T; N], at: u32, x: T) -> [T; N]
    ensures { result ≡ pick (ltb at N) (set xs at x) xs }
{
    let i = at as usize;
    if N <= i {
        return xs;
    }
    let mut new = xs;
    new[i] = x;
    new
}
