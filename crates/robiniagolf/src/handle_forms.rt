//! Each handle of C as the generic one of the same bytes. These have a file of their own: the clauses name rows that the
//! file which declares the handles cannot import.

ghost use Rattle.std.specs.Prelude.{◌≡◌};
ghost use types.Logic.{sem};
ghost use denote.Follow.{follows};
ghost use Rattle.boxed_handle.specs.contracts.handle.Handle.{the_row as handle_of};
ghost use Rattle.robiniagolf.specs.contracts.c_handles.MembReaderHandle.{the_row as memb_reader_handle};
ghost use Rattle.held_values.specs.contracts.MembReader.{the_row as memb_reader};
ghost use Rattle.robiniagolf.specs.contracts.c_handles.MembGraceHandle.{the_row as memb_grace_handle};
ghost use Rattle.held_values.specs.contracts.MembGrace.{the_row as memb_grace};
ghost use Rattle.robiniagolf.specs.contracts.c_handles.MembDomainHandle.{the_row as memb_domain_handle};
ghost use Rattle.held_values.specs.contracts.MembDomain.{the_row as memb_domain};
ghost use Rattle.robiniagolf.specs.contracts.c_handles.QsbrReaderHandle.{the_row as qsbr_reader_handle};
ghost use Rattle.held_values.specs.contracts.QsbrReader.{the_row as qsbr_reader};
ghost use Rattle.robiniagolf.specs.contracts.c_handles.QsbrGraceHandle.{the_row as qsbr_grace_handle};
ghost use Rattle.held_values.specs.contracts.QsbrGrace.{the_row as qsbr_grace};
ghost use Rattle.robiniagolf.specs.contracts.c_handles.QsbrDomainHandle.{the_row as qsbr_domain_handle};
ghost use Rattle.held_values.specs.contracts.QsbrDomain.{the_row as qsbr_domain};
ghost use Rattle.robiniagolf.specs.HandleForms.{from_memb_reader, from_memb_grace, from_memb_domain, from_qsbr_reader, from_qsbr_grace, from_qsbr_domain};

use crate::c_handles::{
    MembDomainHandle, MembGraceHandle, MembReaderHandle, QsbrDomainHandle, QsbrGraceHandle,
    QsbrReaderHandle,
};
use boxed_handle::Handle;
use held_values::{MembDomain, MembGrace, MembReader, QsbrDomain, QsbrGrace, QsbrReader};

impl MembReaderHandle {
    /// The generic handle of the same bytes. When the borrow ends, this one keeps what that one does.
    #[inline(always)]
    pub fn as_handle(&mut self) -> &mut Handle<MembReader>
        ensures* writes_back { sem 𝓛 (follows memb_reader_handle (handle_of memb_reader) self.entry.ghost_name result.ghost_name from_memb_reader) }
        ensures same { (result.now.full ≡ self.old.full) × (result.now.kept.value ≡ self.old.kept.value) }
    {
        unsafe { &mut *(self as *mut MembReaderHandle as *mut Handle<MembReader>) }
    }
}

impl MembGraceHandle {
    /// The generic handle of the same bytes. When the borrow ends, this one keeps what that one does.
    #[inline(always)]
    pub fn as_handle(&mut self) -> &mut Handle<MembGrace>
        ensures* writes_back { sem 𝓛 (follows memb_grace_handle (handle_of memb_grace) self.entry.ghost_name result.ghost_name from_memb_grace) }
        ensures same { (result.now.full ≡ self.old.full) × (result.now.kept.value ≡ self.old.kept.value) }
    {
        unsafe { &mut *(self as *mut MembGraceHandle as *mut Handle<MembGrace>) }
    }
}

impl MembDomainHandle {
    /// The generic handle of the same bytes. When the borrow ends, this one keeps what that one does.
    #[inline(always)]
    pub fn as_handle(&mut self) -> &mut Handle<MembDomain>
        ensures* writes_back { sem 𝓛 (follows memb_domain_handle (handle_of memb_domain) self.entry.ghost_name result.ghost_name from_memb_domain) }
        ensures same { (result.now.full ≡ self.old.full) × (result.now.kept.value ≡ self.old.kept.value) }
    {
        unsafe { &mut *(self as *mut MembDomainHandle as *mut Handle<MembDomain>) }
    }
}

impl QsbrReaderHandle {
    /// The generic handle of the same bytes. When the borrow ends, this one keeps what that one does.
    #[inline(always)]
    pub fn as_handle(&mut self) -> &mut Handle<QsbrReader>
        ensures* writes_back { sem 𝓛 (follows qsbr_reader_handle (handle_of qsbr_reader) self.entry.ghost_name result.ghost_name from_qsbr_reader) }
        ensures same { (result.now.full ≡ self.old.full) × (result.now.kept.value ≡ self.old.kept.value) }
    {
        unsafe { &mut *(self as *mut QsbrReaderHandle as *mut Handle<QsbrReader>) }
    }
}

impl QsbrGraceHandle {
    /// The generic handle of the same bytes. When the borrow ends, this one keeps what that one does.
    #[inline(always)]
    pub fn as_handle(&mut self) -> &mut Handle<QsbrGrace>
        ensures* writes_back { sem 𝓛 (follows qsbr_grace_handle (handle_of qsbr_grace) self.entry.ghost_name result.ghost_name from_qsbr_grace) }
        ensures same { (result.now.full ≡ self.old.full) × (result.now.kept.value ≡ self.old.kept.value) }
    {
        unsafe { &mut *(self as *mut QsbrGraceHandle as *mut Handle<QsbrGrace>) }
    }
}

impl QsbrDomainHandle {
    /// The generic handle of the same bytes. When the borrow ends, this one keeps what that one does.
    #[inline(always)]
    pub fn as_handle(&mut self) -> &mut Handle<QsbrDomain>
        ensures* writes_back { sem 𝓛 (follows qsbr_domain_handle (handle_of qsbr_domain) self.entry.ghost_name result.ghost_name from_qsbr_domain) }
        ensures same { (result.now.full ≡ self.old.full) × (result.now.kept.value ≡ self.old.kept.value) }
    {
        unsafe { &mut *(self as *mut QsbrDomainHandle as *mut Handle<QsbrDomain>) }
    }
}
