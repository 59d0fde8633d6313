// 01, Sequents: the kinds by number.
pub const WD: u64 = 1;

pub const INV: u64 = 2;

pub const FIS: u64 = 3;

pub const GRD: u64 = 4;

pub const SIM: u64 = 5;

pub const WFIS: u64 = 6;

pub const NAT: u64 = 7;

pub const VAR: u64 = 8;
