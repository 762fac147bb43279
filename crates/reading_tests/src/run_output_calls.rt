//! A whole output, read back.
ghost use Rattle.std.specs.Prelude.{◌≡◌, map, true, IfOk};
ghost use Rattle.std.specs.List.{AllByRecursion};
ghost use Rattle.tick_model.specs.Names.{are_distinct};
ghost use Rattle.run_output.specs.Entries.{IsShown};

use crate::update_text_calls::{big, symbols};
use run_output::{OutputEntry, read_output};
use std::alloc::{AllocError, Global};
use std::test::Fail;
use tick_model::items::Items;
use update_text::{PrintedFault, Shown};

/// The table `big` alone.
fn tables(alloc: Global) -> Result<Items<Shown>, AllocError>
    ensures names { IfOk result (λ tables. are_distinct (map (λ shown. shown.name) tables) ≡ true) }
    ensures each { IfOk result (AllByRecursion IsShown) }
{
    let mut tables = Items::new(alloc);
    tables.push(big(alloc)?)?;
    Ok(tables)
}

#[test]
fn an_output_is_read_back(rt: HostRuntime) -> Result<(), Fail> {
    let tables = tables(rt.alloc())?;
    let texts = symbols(rt.alloc())?;
    let text =
        b"step,0,big\na,1,IBM,20\na,2,,\nstep,3,big\nr,1,1\nsnap,1,0,3,big\nw,2,,\nfault,3,read,\"a,\nstep\"\n";
    let entries = read_output(rt.alloc(), text, &tables, &texts)?;
    let entries = entries.as_slice();
    assert_eq!(rt; entries.len(), 4);
    assert!(rt;
        matches!(entries.first(), Some(OutputEntry::Update { table: 0, step: 0, change }) if change.cells.len() == 4)
    );
    assert!(rt;
        matches!(
            entries.get(1),
            Some(OutputEntry::Update {
                table: 0,
                step: 3,
                ..
            })
        )
    );
    assert!(rt;
        matches!(entries.get(2), Some(OutputEntry::Snapshot { table: 0, snapshot }) if snapshot.rows.len() == 1)
    );
    assert!(rt; matches!(entries.get(3), Some(OutputEntry::Fault { fields }) if fields.len() == 3));
    let ended = read_output(rt.alloc(), b"done,7\n", &tables, &texts)?;
    let first = ended.as_slice().first();
    assert!(rt; matches!(first, Some(OutputEntry::Done { step: 7 })));
    Ok(())
}

#[test]
fn other_outputs_are_refused(rt: HostRuntime) -> Result<(), Fail> {
    let tables = tables(rt.alloc())?;
    let texts = symbols(rt.alloc())?;
    for text in [
        "done,07\n",
        "done,7",
        "a,1,IBM,20\n",
        "step,0,small\na,1,IBM,20\n",
        "step,0,big\na,1,IBM,20\nw,2,,\n",
        "demo,10,99\n",
    ] {
        let read = read_output(rt.alloc(), text.as_bytes(), &tables, &texts);
        assert!(rt; matches!(read, Err(PrintedFault::NotPrinted)));
    }
    Ok(())
}
