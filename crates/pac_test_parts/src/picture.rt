//! Which cells a picture draws again: the count of them shows in no picture.

use pac_picture::{Picture, Screen};

/// What is written before a picture is composed, and how many cells are drawn then.
struct Turn {
    /// The tile RAM's first byte, which no cell shows.
    hidden: u8,
    /// The colour of the cell of 4440H.
    colour: u8,
    /// Whether every cell counts as differing.
    stale: bool,
    /// The cells that are drawn.
    drawn: u32,
}

/// One picture, composed again and again.
static TURNS: [Turn; 5] = [
    Turn {
        hidden: 0,
        colour: 0,
        stale: false,
        drawn: 1008,
    },
    Turn {
        hidden: 0,
        colour: 0,
        stale: false,
        drawn: 0,
    },
    Turn {
        hidden: 0,
        colour: 1,
        stale: false,
        drawn: 1,
    },
    Turn {
        hidden: 1,
        colour: 1,
        stale: false,
        drawn: 0,
    },
    Turn {
        hidden: 1,
        colour: 1,
        stale: true,
        drawn: 1008,
    },
];

/// The bytes of the sprites, which are none.
static SPRITES: [u8; 16] = [0; 16];

/// Composes a picture; whether so many cells are drawn.
fn draws(picture: &mut Picture, turn: &Turn) -> bool {
    let mut tiles = [0u8; 1024];
    let mut colours = [0u8; 1024];
    tiles[0] = turn.hidden;
    colours[0x040] = turn.colour;
    if turn.stale {
        picture.set_stale();
    }
    let screen = Screen::new(&tiles, &colours, &SPRITES, &SPRITES, false);
    picture.compose(&screen);
    picture.drawn() == turn.drawn
}

/// How many turns come before the first at which other cells are drawn.
fn right_turns() -> usize {
    let mut picture = Picture::zeroed();
    for place in 0..TURNS.len() {
        if !draws(&mut picture, &TURNS[place]) {
            return place;
        }
    }
    TURNS.len()
}

#[test]
fn cells_drawn(rt: HostRuntime) {
    let place = right_turns();
    assert!(rt; place == TURNS.len(), "turn {place}");
}
