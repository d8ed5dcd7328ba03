//! Rows as those of a shop's orders: texts and numbers of a few bytes to some hundred, three notes in sixteen null, and two with
//! bytes that COPY text escapes.

use itoa::Buffer;
use pg_wire::{Column, EncodeFault, Seq};
use rand_xoshiro::Xoshiro256PlusPlus;
use rand_xoshiro::rand_core::Rng;
use std::alloc::{AllocError, Global};

/// How many values a row has.
pub const WIDTH: usize = 7;

/// The names of the columns.
const NAMES: [&[u8]; WIDTH] = [
    b"order_id",
    b"customer",
    b"note",
    b"amount",
    b"placed_at",
    b"state",
    b"is_paid",
];

const CUSTOMERS: [&[u8]; 16] = [
    b"Ada Lovelace",
    b"Grace Hopper",
    b"Alan Turing",
    b"Edsger Dijkstra",
    b"Barbara Liskov",
    b"Donald Knuth",
    b"Tony Hoare",
    b"Frances Allen",
    b"J\xC3\xB8rgen M\xC3\xB8ller",
    b"Ren\xC3\xA9e Fran\xC3\xA7ois",
    b"Li Wei",
    b"O'Brien & Sons, Ltd.",
    b"M\xC3\xBCller GmbH",
    b"Anonymous",
    b"Niklaus Wirth",
    b"The Royal Society for Putting Things on Top of Other Things",
];

const NOTES: [Option<&[u8]>; 16] = [
    None,
    Some(b"leave with the neighbour, the blue door on the left, and ring twice please"),
    Some(b"gift"),
    Some(b""),
    Some(b"call before delivery: +44 20 7946 0958"),
    Some(b"first line\nsecond line"),
    Some(b"fragile"),
    None,
    Some(
        b"paid by invoice 2026/11/0045, of which a copy was sent to accounts on the day the order came in",
    ),
    Some(b"column\tseparated \\ and slashed"),
    Some(b"second attempt"),
    Some(
        b"{\"source\": \"web\", \"campaign\": \"autumn\", \"clicks\": [3, 17, 29], \"returning\": true}",
    ),
    Some(b"Stra\xC3\x9Fe gesperrt, bitte von Norden anfahren"),
    Some(b"none"),
    None,
    Some(b"see ticket 48151623"),
];

const DAYS: [&[u8]; 8] = [
    b"2026-11-20 08:15:32.104233+00",
    b"2026-11-20 09:47:01.5+00",
    b"2026-11-21 12:00:00+00",
    b"2026-11-21 17:33:59.999999+00",
    b"2026-11-22 03:12:45.000817+00",
    b"2026-11-23 22:58:10.77+00",
    b"2026-11-24 06:06:06.060606+00",
    b"infinity",
];

const AMOUNTS: [&[u8]; 8] = [
    b"0.00",
    b"7.95",
    b"12.50",
    b"119.99",
    b"1043.20",
    b"88.88",
    b"23755.01",
    b"3.14",
];

const STATES: [&[u8]; 4] = [b"open", b"packed", b"shipped", b"returned"];

const FLAGS: [&[u8]; 2] = [b"t", b"f"];

/// An order.
#[derive(Drop)]
pub struct Order {
    id: u64,
    id_digits: Buffer,
}

impl Order {
    /// The order before the first.
    pub fn new() -> Order {
        Order {
            id: 0,
            id_digits: Buffer::new(),
        }
    }

    /// The values of the next order.
    pub fn next(&mut self, random: &mut Xoshiro256PlusPlus) -> [Option<&[u8]>; WIDTH] {
        let bits = random.next_u64();
        let id = self.id.wrapping_add(1 + (bits >> 60));
        self.id = id;
        [
            Some(self.id_digits.format(id).as_bytes()),
            Some(CUSTOMERS[(bits & 15) as usize]),
            NOTES[(bits >> 4 & 15) as usize],
            Some(AMOUNTS[(bits >> 8 & 7) as usize]),
            Some(DAYS[(bits >> 28 & 7) as usize]),
            Some(STATES[(bits >> 31 & 3) as usize]),
            Some(FLAGS[(bits >> 33 & 1) as usize]),
        ]
    }
}

// A column of an order, of the type text.
fn column(alloc: Global, name: &[u8]) -> Result<Column, AllocError> {
    Ok(Column {
        name: Seq::from_slice(alloc, name)?,
        table_oid: 16_412,
        attribute: 1,
        type_oid: 25,
        size: -1,
        modifier: -1,
        format: 0,
    })
}

/// The columns of an order.
pub fn columns(alloc: Global) -> Result<Seq<Column>, AllocError> {
    let mut columns = Vec::new(alloc);
    for name in NAMES {
        columns.push(column(alloc, name)?)?;
    }
    Ok(Seq::new(columns))
}
