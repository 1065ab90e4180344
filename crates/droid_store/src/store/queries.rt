//! The queries of the store. They change no row, even if they fail.

ghost use Rattle.std.specs.Prelude.{◌≡◌, IfOk, IfErr, Ok, option_map};
ghost use Rattle.droid_store.specs.declared.fault.StoreFault.TheVariants.{Memory};
ghost use Rattle.droid_store.specs.Rows.{profile_at, node_at, child_at, reply_for, records_of, counts_of, row_of};
ghost use Rattle.droid_store.specs.RecordOrder.{AreByNumber};

use crate::fault::StoreFault;
use crate::look_up::{find_child, find_node, find_profile, find_reply};
use crate::record_list::list_records;
use crate::row_reader::{entry_of, node_of, profile_of};
use crate::rows::{Counts, Entry, NodeRow, ProfileRow};
use crate::store::Store;
use droid_frame::{NUMBER_LIMIT, Record};

impl Store {
    /// Returns the reply under this client and number. For a number of 2^63 or more there is none.
    pub fn reply_of(&mut self, client: u32, number: u64) -> Result<Option<Entry>, StoreFault>
        ensures same { self.new ≡ self.old }
        ensures found { IfOk result (λ found. found ≡ reply_for client number self.old) }
        ensures memory { IfErr result (λ fault. fault ≡ Memory) }
    {
        let conn = &mut self.conn;
        if number >= NUMBER_LIMIT {
            return Ok(None);
        }
        let Some(row) = find_reply(conn, client, number)? else {
            return Ok(None);
        };
        Ok(Some(entry_of(&row, client, number)?))
    }

    /// Returns the profile with this number, or `None` if there is none.
    pub fn profile(&mut self, profile: u32) -> Result<Option<ProfileRow>, StoreFault>
        ensures same { self.new ≡ self.old }
        ensures found { IfOk result (λ found. found ≡ profile_at profile self.old) }
        ensures memory { IfErr result (λ fault. fault ≡ Memory) }
    {
        let Some(row) = find_profile(&mut self.conn, profile)? else {
            return Ok(None);
        };
        Ok(Some(profile_of(&row)?))
    }

    /// Returns the node of this profile with this number, or `None` if there is none or it was abandoned.
    pub fn node(&mut self, profile: u32, id: u32) -> Result<Option<NodeRow>, StoreFault>
        ensures same { self.new ≡ self.old }
        ensures found { IfOk result (λ found. found ≡ option_map row_of (node_at profile id self.old)) }
        ensures memory { IfErr result (λ fault. fault ≡ Memory) }
    {
        let Some(row) = find_node(&mut self.conn, profile, id)? else {
            return Ok(None);
        };
        Ok(Some(node_of(self.alloc, &row)?))
    }

    /// Returns the number of the node with this name in this folder, or `None` if there is none. Names are compared
    /// byte for byte, and the top is folder 0.
    pub fn child(
        &mut self,
        profile: u32,
        parent: u32,
        name: &str,
    ) -> Result<Option<u32>, StoreFault>
        ensures same { self.new ≡ self.old }
        ensures found { IfOk result (λ found.
            found ≡ option_map (λ n. n.id) (child_at profile parent name.now self.old)) }
        ensures memory { IfErr result (λ fault. fault ≡ Memory) }
    {
        let Some(row) = find_child(&mut self.conn, profile, parent, name)? else {
            return Ok(None);
        };
        Ok(Some(row.get(0)?))
    }

    /// Returns the folders and finished files of the profile in the order of their numbers; none if there is no such
    /// profile.
    pub fn records(&mut self, profile: u32) -> Result<Vec<Record>, StoreFault>
        ensures same { self.new ≡ self.old }
        ensures found { IfOk result (λ found. found.items ≡ records_of profile self.old) }
        ensures by_number { IfOk result (λ found. AreByNumber found.items) }
        ensures memory { IfErr result (λ fault. fault ≡ Memory) }
    {
        let records = list_records(&mut self.conn, self.alloc, profile)?;
        Ok(records)
    }

    /// Returns the number of rows. It reads no table and never fails, but has the form of the other queries.
    pub fn counts(&mut self) -> Result<Counts, StoreFault>
        ensures same { self.new ≡ self.old }
        ensures found { result ≡ Ok (counts_of self.old) }
    {
        Ok(self.counts)
    }
}
