ghost use Rattle.std.specs.Prelude.{◌≡◌, ◌<◌};

use crate::{SightNumbers, Sights, graph_of};
use craft_settings::Settings;
use craft_state::Combo;
use priced_moves::{Prices, Seen, Units};
use std::test::Fail;
use test_crafts::ORDINARY;
use walk_table::{Limits, WalkTable};

const UNITS: Units = Units {
    progress: 31,
    share: 2,
    quality: 1,
};

const SEEN: Seen = Seen {
    need: 7,
    iq: 0,
    innovation: 0,
    veneration: 0,
    strides: false,
    muscle: false,
    combo: Combo::Standard,
    begun: false,
};

// An effect is seen where the level teaches what leads to it and it isn't forbidden.
#[test]
fn counts_the_sights_of_crafts(rt: HostRuntime) -> Result<(), Fail> {
    for (level, forbidden, backload, nodes) in [
        (100, 0, false, 1100),
        (100, 0, true, 2200),
        (100, 256, false, 220), // no Innovation
        (100, 2048, false, 550), // no Muscle Memory
        (50, 0, false, 550),
        (20, 0, false, 55), // Veneration alone
        (10, 0, false, 1),
    ] {
        let sights = Sights::of(&Settings {
            level,
            forbidden,
            backload,
            ..ORDINARY
        });
        assert_eq!(rt; sights.nodes(), nodes);
    }
    Ok(())
}

// Digits by hand: stacks, five steps each of Innovation and Veneration, Great Strides; no Muscle Memory at level 50.
#[test]
fn numbers_sights(rt: HostRuntime) -> Result<(), Fail> {
    let sights = Sights::of(&ORDINARY);
    let numbers = SightNumbers::new(rt.alloc(), &sights)?;
    for (iq, innovation, veneration, strides, number) in [
        (0, 0, 0, true, 1),
        (0, 0, 1, false, 2),
        (0, 1, 0, false, 10),
        (1, 0, 0, false, 50),
        (10, 4, 4, true, 549),
    ] {
        let x = Seen {
            iq,
            innovation,
            veneration,
            strides,
            ..SEEN
        };
        assert_eq!(rt; numbers.find(&x), Some(number));
        if sights.has(&x) {
            assert_eq!(rt; sights.number(&x), number);
        } else {
            return Err("not a sight".into());
        }
    }
    let muscle = Seen {
        muscle: true,
        ..SEEN
    };
    assert!(rt; !sights.has(&muscle));
    assert_eq!(rt; numbers.find(&muscle), None);
    Ok(())
}

const LIMITS: Limits = Limits {
    top: 120,
    needs: 11,
    most: 65534,
};

// Goes on with a sum over the answers of a budget and a node.
fn column_sum(table: &WalkTable, budget: usize, node: usize, before: u64) -> u64
    requires budget { budget < 121 }
    requires node { node < 550 }
    requires nodes { table.now.graph.nodes ≡ 550 }
    requires top { table.now.top ≡ 120 }
    requires needs { table.now.needs ≡ 11 }
{
    let mut sum = before;
    for need in 0..11usize {
        let worth = match table.at(budget, node, need) {
            None => 0,
            Some(worth) => u64::from(worth) + 1,
        };
        sum = sum.wrapping_mul(31).wrapping_add(worth);
    }
    sum
}

fn sum_of(table: &WalkTable) -> u64
    requires nodes { table.now.graph.nodes ≡ 550 }
    requires top { table.now.top ≡ 120 }
    requires needs { table.now.needs ≡ 11 }
{
    let mut sum = 0;
    for column in 0..66550usize {
        sum = column_sum(table, column / 550, column % 550, sum);
    }
    sum
}

// The whole table of a craft is that of a plain program.
#[test]
fn fills_the_table_of_a_craft(rt: HostRuntime) -> Result<(), Fail> {
    let p = Prices::fair(&ORDINARY, 1, 20, 1);
    let graph = graph_of(rt.alloc(), &p, &ORDINARY, &UNITS)
        .ok()
        .ok_or("want of memory")?;
    if graph.nodes() != 550 {
        return Err("another number of nodes".into());
    }
    assert!(rt; graph.len() < 550 * 12);
    let table = WalkTable::new(&rt, rt.alloc(), graph, LIMITS, 2)?;
    assert_eq!(rt; sum_of(&table), 3866553083064629458);
    Ok(())
}
