//! ZCert: ZLight whose replicas sign their answers, and keep certificates of them.
#![tactic(auto)]

mod keeping;
mod signing;
mod zcert;

pub use zcert::ZCert;
