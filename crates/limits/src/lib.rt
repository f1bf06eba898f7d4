// The limits of documents 01 and 02, each named once, and the sizes that follow from them.
#![tactic(auto)]

// The longest text, in bytes.
pub const LONGEST: usize = 16384;
// The most channels.
pub const MOST_CHANNELS: u8 = 32;
// The most binders.
pub const MOST_BINDERS: u8 = 32;
// The highest level that k may be.
pub const HIGHEST_LEVEL: u8 = 6;
// The highest name.
pub const HIGHEST_NAME: u8 = 63;
// The most free names.
pub const MOST_NAMES: usize = 64;
// The most nodes.
pub const MOST_NODES: usize = 256;
// The greatest depth.
pub const MOST_DEPTH: usize = 32;

// The outermost level, # in document 000: the number behind the highest level.
pub const OUTERMOST: u8 = HIGHEST_LEVEL + 1;
// The levels that there are, # among them.
pub const LEVELS: u8 = OUTERMOST + 1;
// The sets of a row with one for each binder.
pub const BINDER_SETS: usize = MOST_BINDERS as usize;
// The channels of a level, and so its in sets or its out sets.
pub const CHANNEL_SETS: usize = MOST_CHANNELS as usize;
// The sets of a row with one for each level and channel, those of a level side by side.
pub const LEVEL_SETS: usize = LEVELS as usize * CHANNEL_SETS;

// The things that may have a label: a channel, a binder or a level each.
pub const MOST_LABELS: usize = CHANNEL_SETS + BINDER_SETS + LEVELS as usize;
// The longest label, in bytes.
pub const LONGEST_LABEL: usize = 60;
// The longest shortened label, in bytes.
pub const LONGEST_SHORT: usize = 24;
