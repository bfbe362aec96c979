// The memo of a search: splits that have no layout, each with the splits of its subtree. A split is known by its variable and its key, what the variables
// from there on stand for. Keys are compared whole; the hash only picks a slot.
#![tactic(auto)]

ghost use Rattle.std.specs.Prelude.{◌≡◌, true, ◌+◌, ◌≤◌, ◌<◌, IfSome};
ghost use Rattle.literal.specs.Literal.{max_variables};
ghost use Rattle.theory.specs.Memo.{word};
ghost use Rattle.tally.specs.Tally.{state_in};
ghost use Rattle.memo.specs.Memory.{slot_room, pending, spread_most, credit_most, share_most, slot_at, number_in, slot_count};
ghost use Rattle.memo.specs.Memory.{Keying, Empty, Spared, Numbered, KeyAt, Placing, Keyed, Recalled, Taken, HoldOf, KeepOf, Keepable};

use literal::Literal;
use tally::Tally;

// What 65536 words leave, beside two for each variable and five.
const SLOT_WORDS: usize = 65536 - 2 * Literal::VARIABLES - 5;

// The slots, one after another.
type Slots = [u16; SLOT_WORDS];

#[derive(Clone, Copy)]
pub struct Memory {
    // The weights of the hash.
    pub weights: [u16; Literal::VARIABLES],
    // How many slots there are.
    pub count: usize,
    // For each variable whether a split on it was ever held.
    pub held: [bool; Literal::VARIABLES],
    // What may be spent.
    pub credit: u32,
    // How many splits were made.
    pub walked: u32,
    pub slots: Slots,
}

// A slot: its tag, the splits of the subtree as two words, the variable that is split on, and the key.
const SPLITS: usize = 1;

const VARIABLE: usize = 3;

const KEY: usize = 4;

// A held slot has its tag and this.
const PENDING: u16 = 32768;

// What Search asks for: as many slots as there is room for, and odd weights below 2 * SPREAD.
pub const MOST_SLOTS: usize = SLOT_WORDS;

pub const SPREAD: usize = 4096;

// What the memo may still cost, in nanoseconds or so. Every split adds a little, a look and a held slot take what they cost, and splits saved add what they
// would have cost. So the memo costs at most what it saved and some hundredths of the search.
const INCOME: u32 = 16;

const LOOK: u32 = 40;

const HOLD: u32 = 120;

const SPLIT: u32 = 400;

const MOST_SAVED: u32 = 1000;

const FIRST_CREDIT: u32 = 16000;

const RICH: u32 = 40000;

const MOST_CREDIT: u32 = 2000000;

// How many splits, with those of the first side, make a subtree worth a slot.
const RICH_SPLITS: u32 = 2;

const POOR_SPLITS: u32 = 8;

// The beginning ----------------------------------------------------------------------------------------------------

// A linear congruential generator. The low part of its numbers repeats soon and is dropped; the rest is below SPREAD. No answer depends on these numbers.
const SEED: usize = 12345;

const MULTIPLIER: usize = 1103;

const INCREMENT: usize = 12345;

const LOW: usize = 256;

const MODULUS: usize = LOW * SPREAD;

// Odd weights below 2 * spread, by the generator.
fn weights(spread: usize) -> [u16; Literal::VARIABLES]
    requires spread_nonzero { 0 < spread }
    requires spread_le_spread_most { spread ≤ spread_most }
{
    let mut weights = [0u16; Literal::VARIABLES];
    let mut x = SEED;
    for i in 0..Literal::VARIABLES {
        x = (x * MULTIPLIER + INCREMENT) % MODULUS;
        weights[i] = (2 * (x / LOW % spread) + 1) as u16;
    }
    weights
}

// Numbers ----------------------------------------------------------------------------------------------------------

// A word has so many values.
const WORD: u32 = 65536;

// A number of two words.
fn number_at(slots: &Slots, i: usize) -> u32
    requires { i + 1 < slot_room }
    ensures { result ≡ number_in slots.now i }
{
    slots[i] as u32 + WORD * (slots[i + 1] as u32)
}

fn put_number(slots: &mut Slots, i: usize, x: u32)
    requires { i + 1 < slot_room }
    ensures { Numbered i x slots.old slots.new }
{
    slots[i] = (x % WORD) as u16;
    slots[i + 1] = (x / WORD) as u16;
}

// Keys -------------------------------------------------------------------------------------------------------------

// A word of the key of a state that is split on p, from the code of what a variable stands for.
fn word(value: u16, p: usize) -> u16
    requires { p ≤ max_variables }
    ensures { result ≡ word p value }
{
    if value < 2 * (p as u16) { 0 } else { value }
}

// Powers of two above every word of a key and above every weight.
const WORD_BOUND: u16 = 1024;

const WEIGHT_BOUND: u16 = 2 * SPREAD as u16;

// What a word adds to the hash. The remainders change nothing; they keep the sum in its range.
fn share(word: u16, weight: u16) -> u32
    ensures { result ≤ share_most }
{
    ((word % WORD_BOUND) as u32) * ((weight % WEIGHT_BOUND) as u32)
}

// Writes the key of a state that is split on p, in the slot that begins at `base`.
fn put_key(slots: &mut Slots, state: &Tally, base: usize, p: usize, n: usize)
    requires { Placing n p base }
    ensures { Keyed n p (state_in state.now) base slots.old slots.new }
{
    slots[base + VARIABLE] = p as u16;
    for j in 0..n + 1 - p {
        slots[base + KEY + j] = word(state.value_of(p + j), p);
    }
}

// Whether that slot has the key. Differences are counted to the end: without an early exit several words are compared at once.
fn is_key(slots: &Slots, state: &Tally, base: usize, p: usize, n: usize) -> bool
    requires { Placing n p base }
    ensures { result ≡ true → KeyAt n p (state_in state.now) base slots.now }
{
    let mut differences = (slots[base + VARIABLE] != p as u16) as u16;
    for j in 0..n + 1 - p {
        differences += (slots[base + KEY + j] != word(state.value_of(p + j), p)) as u16;
    }
    differences == 0
}

// Slots ------------------------------------------------------------------------------------------------------------

fn tag_of(h: u32) -> u16
    ensures { result < pending }
{
    (h % (PENDING as u32)) as u16
}

// Where a slot begins.
fn base_of(slot: usize, n: usize) -> usize
    requires n_le_max_variables { n ≤ max_variables }
    requires slot_bound { slot_at n slot ≤ slot_room }
    ensures { result ≡ slot_at n slot }
{
    slot * (n + KEY)
}

fn worthwhile(credit: u32) -> u32 {
    if credit < RICH {
        POOR_SPLITS
    } else {
        RICH_SPLITS
    }
}

impl Memory {
    // Nothing is known: at most so many slots, and how far the weights of the hash spread.
    pub fn new(n: usize, slots: usize, spread: usize) -> Memory
        requires { n ≤ max_variables }
        ensures { Empty n result }
    {
        Memory {
            weights: weights(spread.clamp(1, SPREAD)),
            count: slots.clamp(1, SLOT_WORDS / (n + KEY)),
            held: [false; Literal::VARIABLES],
            credit: FIRST_CREDIT,
            walked: 0,
            slots: [0; SLOT_WORDS],
        }
    }

    fn spendable(&self) -> u32
        ensures { result ≤ credit_most }
    {
        self.credit.min(MOST_CREDIT)
    }

    // A split is made. The count stays at its end.
    pub fn count_split(&mut self)
        ensures { Spared self.old self.new }
    {
        self.credit = self.spendable() + INCOME;
        self.walked = self.walked.saturating_add(1);
    }

    // The hash of a key: it picks the slot and the tag, and says nothing else.
    fn hash(&self, state: &Tally, p: usize, n: usize) -> u32
        requires { Keying n p self.now }
    {
        let mut sum = 0;
        for j in 0..n + 1 - p {
            sum += share(word(state.value_of(p + j), p), self.weights[p + j]);
        }
        sum
    }

    fn slot_of(&self, h: u32) -> usize
        requires { 0 < slot_count self.now }
        ensures { result < slot_count self.now }
    {
        h as usize % self.count
    }

    // The splits of a split on p with the key of this state, where they are known.
    fn look(&self, state: &Tally, p: usize, n: usize) -> Option<u32>
        requires { Keying n p self.now }
        ensures { IfSome result (Recalled n p (state_in state.now) self.now) }
    {
        let h = self.hash(state, p, n);
        let base = base_of(self.slot_of(h), n);
        if self.slots[base] != tag_of(h) || !is_key(&self.slots, state, base, p, n) {
            return None;
        }
        let splits = number_at(&self.slots, base + SPLITS);
        if splits == 0 { None } else { Some(splits) }
    }

    // The same, where a look may be spent.
    pub fn remembered(&mut self, state: &Tally, p: usize, n: usize) -> Option<u32>
        requires { Keying n p self.old }
        ensures spared { Spared self.old self.new }
        ensures known { IfSome result (Recalled n p (state_in state.now) self.old) }
    {
        if !self.held[p] {
            return None;
        }
        let credit = self.spendable();
        if credit < LOOK + HOLD {
            return None;
        }
        let found = self.look(state, p, n);
        let saved = found.unwrap_or(0).min(MOST_SAVED);
        self.credit = credit - LOOK + SPLIT * saved;
        found
    }

    // Whether a subtree of so many splits, with those of the first side, is worth a slot; it is paid then.
    fn pay(&mut self, splits: u32) -> bool
        ensures { Spared self.old self.new }
    {
        let credit = self.spendable();
        if splits < worthwhile(credit) || credit < HOLD {
            return false;
        }
        self.credit = credit - HOLD;
        true
    }

    // Holds a free slot for a split on p.
    fn take(&mut self, state: &Tally, slot: usize, tag: u16, p: usize, n: usize)
        requires keying { Keying n p self.old }
        requires slot_bound { slot < slot_count self.old }
        requires tag_lt_pending { tag < pending }
        ensures { Taken n p (state_in state.now) self.old self.new slot }
    {
        let base = base_of(slot, n);
        self.held[p] = true;
        self.slots[base] = tag + PENDING;
        put_number(&mut self.slots, base + SPLITS, 0);
        put_key(&mut self.slots, state, base, p, n);
    }

    // Holds a slot for a split on p whose first side has no layout, where that is worth it and the slot is free; answers which.
    pub fn hold(&mut self, state: &Tally, p: usize, n: usize, splits: u32) -> Option<usize>
        requires { Keying n p self.old }
        ensures { HoldOf n p (state_in state.now) self.old self.new result }
    {
        if !self.pay(splits) {
            return None;
        }
        let h = self.hash(state, p, n);
        let slot = self.slot_of(h);
        let base = base_of(slot, n);
        if PENDING <= self.slots[base] {
            return None;
        }
        self.take(state, slot, tag_of(h), p, n);
        Some(slot)
    }

    // The split that a slot is held for has no layout, and so many splits.
    pub fn keep(&mut self, held: Option<usize>, n: usize, splits: u32)
        requires { Keepable n self.old held }
        ensures { KeepOf n splits self.old self.new held }
    {
        let Some(slot) = held else {
            return;
        };
        let base = base_of(slot, n);
        self.slots[base] %= PENDING;
        put_number(&mut self.slots, base + SPLITS, splits);
    }
}
