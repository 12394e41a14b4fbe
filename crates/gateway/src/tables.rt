// The session table (document 01, 'Table of 32').
ghost use Rattle.std.specs.Prelude.{◌≡◌};
ghost use Rattle.seqs.specs.Flag.{yes};
ghost use Rattle.sessions.specs.Promises.{Starts, Stores, LooksUp, Withdraws, CountsHeld, Clears};

use sessions::{Cleared, Held, Looked, Stored, Table, Withdrawn};

#[unsafe(no_mangle)]
pub extern "C" fn axle_table_fresh() -> Table
    ensures { Starts result }
{
    Table::fresh()
}

#[unsafe(no_mangle)]
pub extern "C" fn axle_table_store(
    table: Table,
    axle: u8,
    identifier: &[u8],
    ems: u8,
    suite: u16,
    secret: &[u8],
) -> Stored
    ensures { Stores table (record { axle = axle; identifier = identifier.now; ems = yes ems; suite = suite; secret = secret.now }) result }
{
    table.store(axle, identifier, ems != 0, suite, secret)
}

#[unsafe(no_mangle)]
pub extern "C" fn axle_table_look_up(
    table: Table,
    axle: u8,
    identifier: &[u8],
    out: &mut [u8],
) -> Looked
    ensures { LooksUp table axle identifier.now out.old result out.new }
{
    table.look_up(axle, identifier, out)
}

#[unsafe(no_mangle)]
pub extern "C" fn axle_table_withdraw(table: Table, axle: u8, identifier: &[u8]) -> Withdrawn
    ensures { Withdraws table axle identifier.now result }
{
    table.withdraw(axle, identifier)
}

#[unsafe(no_mangle)]
pub extern "C" fn axle_table_held(table: Table, axle: u8) -> Held
    ensures { CountsHeld table axle result }
{
    table.held(axle)
}

#[unsafe(no_mangle)]
pub extern "C" fn axle_table_clear(table: Table) -> Cleared
    ensures { Clears table result }
{
    table.clear()
}
