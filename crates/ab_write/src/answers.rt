//! Signatures of several replicas, and certificates of answers.

use crate::parts::put_sig;
use crate::spelled::{Spelled, put_counted};
use ab_form::{put_bytes, put_u8, put_u16, put_u64};
use ab_msg::{Sig, Signatures, Zcert};
use ab_num::OutOfMemory;
use std::alloc::Global;

impl Spelled for (u8, Sig) {
    ghost use Rattle.ab_msg.specs.Fields.{spell_signer};

    ghost spelled = { spell_signer };

    fn put(&self, alloc: Global, out: &mut Vec<u8>) -> Result<(), OutOfMemory> {
        put_u8(alloc, out, self.0)?;
        put_sig(alloc, out, &self.1)?;
        Ok(())
    }
}

impl Spelled for Signatures {
    ghost use Rattle.ab_msg.specs.Certs.{spell_prepares};

    ghost spelled = { spell_prepares };

    fn put(&self, alloc: Global, out: &mut Vec<u8>) -> Result<(), OutOfMemory> {
        put_counted(alloc, out, self.as_slice())
    }
}

impl Spelled for Zcert {
    ghost use Rattle.ab_msg.specs.Contents.{spell_zcert};

    ghost spelled = { spell_zcert };

    fn put(&self, alloc: Global, out: &mut Vec<u8>) -> Result<(), OutOfMemory> {
        put_u16(alloc, out, self.client)?;
        put_u64(alloc, out, self.stamp)?;
        put_u16(alloc, out, self.n)?;
        put_bytes(alloc, out, &self.d)?;
        self.reply.put(alloc, out)?;
        self.sigs.put(alloc, out)?;
        Ok(())
    }
}
