//! The handles of C, one for each type that is kept. No generic struct may cross to C, so each is a struct of its own
//! with the bytes of `boxed_handle::Handle`, and `as_handle` is that handle.

ghost use Rattle.std.specs.Prelude.{◌≡◌, Option, Some, None, is_some};
ghost use Rattle.std.specs.Coded.{coded_option};
ghost use denote.RawPtr.{Ptr};
ghost use Rattle.boxed_handle.specs.Owned.{heap_token, owned_at};
ghost use Rattle.held_values.specs.declared.MembReader.{MembReader};
ghost use Rattle.held_values.specs.contracts.MembReader.{the_row as memb_reader};
ghost use Rattle.held_values.specs.declared.MembGrace.{MembGrace};
ghost use Rattle.held_values.specs.contracts.MembGrace.{the_row as memb_grace};
ghost use Rattle.held_values.specs.declared.MembDomain.{MembDomain};
ghost use Rattle.held_values.specs.contracts.MembDomain.{the_row as memb_domain};
ghost use Rattle.held_values.specs.declared.QsbrReader.{QsbrReader};
ghost use Rattle.held_values.specs.contracts.QsbrReader.{the_row as qsbr_reader};
ghost use Rattle.held_values.specs.declared.QsbrGrace.{QsbrGrace};
ghost use Rattle.held_values.specs.contracts.QsbrGrace.{the_row as qsbr_grace};
ghost use Rattle.held_values.specs.declared.QsbrDomain.{QsbrDomain};
ghost use Rattle.held_values.specs.contracts.QsbrDomain.{the_row as qsbr_domain};

use held_values::{MembDomain, MembGrace, MembReader, QsbrDomain, QsbrGrace, QsbrReader};
use std::marker::Model;

/// The pointer to a reader of the general-purpose flavour in a box of the heap, or null.
#[repr(C)]
#[derive(Drop)]
pub struct MembReaderKept {
    at: *mut u8,
    pub ghost value: { Option MembReader } by { coded_option memb_reader.coded },
}

impl Model for MembReaderKept {
    ghost also_owns = { λ h. owned_at heap_token memb_reader h.at h.value };
}

// What it owns may cross.
unsafe impl Send for MembReaderKept {}

/// `struct robiniagolf_memb_reader`. All zeros keeps nothing.
#[repr(C)]
#[derive(Drop)]
pub struct MembReaderHandle {
    /// Whether it keeps something.
    pub full: bool,
    /// What it keeps.
    pub kept: MembReaderKept,
    pub ghost told: { full ≡ is_some kept.value },
}

/// The pointer to the grace periods of the general-purpose flavour in a box of the heap, or null.
#[repr(C)]
#[derive(Drop)]
pub struct MembGraceKept {
    at: *mut u8,
    pub ghost value: { Option MembGrace } by { coded_option memb_grace.coded },
}

impl Model for MembGraceKept {
    ghost also_owns = { λ h. owned_at heap_token memb_grace h.at h.value };
}

// What it owns may cross.
unsafe impl Send for MembGraceKept {}

/// `struct robiniagolf_memb_grace`. All zeros keeps nothing.
#[repr(C)]
#[derive(Drop)]
pub struct MembGraceHandle {
    /// Whether it keeps something.
    pub full: bool,
    /// What it keeps.
    pub kept: MembGraceKept,
    pub ghost told: { full ≡ is_some kept.value },
}

/// The pointer to a domain of the general-purpose flavour in a box of the heap, or null.
#[repr(C)]
#[derive(Drop)]
pub struct MembDomainKept {
    at: *mut u8,
    pub ghost value: { Option MembDomain } by { coded_option memb_domain.coded },
}

impl Model for MembDomainKept {
    ghost also_owns = { λ h. owned_at heap_token memb_domain h.at h.value };
}

// What it owns may cross.
unsafe impl Send for MembDomainKept {}

/// `struct robiniagolf_memb_domain`. All zeros keeps nothing.
#[repr(C)]
#[derive(Drop)]
pub struct MembDomainHandle {
    /// Whether it keeps something.
    pub full: bool,
    /// What it keeps.
    pub kept: MembDomainKept,
    pub ghost told: { full ≡ is_some kept.value },
}

/// The pointer to a reader of the quiescent-state flavour in a box of the heap, or null.
#[repr(C)]
#[derive(Drop)]
pub struct QsbrReaderKept {
    at: *mut u8,
    pub ghost value: { Option QsbrReader } by { coded_option qsbr_reader.coded },
}

impl Model for QsbrReaderKept {
    ghost also_owns = { λ h. owned_at heap_token qsbr_reader h.at h.value };
}

// What it owns may cross.
unsafe impl Send for QsbrReaderKept {}

/// `struct robiniagolf_qsbr_reader`. All zeros keeps nothing.
#[repr(C)]
#[derive(Drop)]
pub struct QsbrReaderHandle {
    /// Whether it keeps something.
    pub full: bool,
    /// What it keeps.
    pub kept: QsbrReaderKept,
    pub ghost told: { full ≡ is_some kept.value },
}

/// The pointer to the grace periods of the quiescent-state flavour in a box of the heap, or null.
#[repr(C)]
#[derive(Drop)]
pub struct QsbrGraceKept {
    at: *mut u8,
    pub ghost value: { Option QsbrGrace } by { coded_option qsbr_grace.coded },
}

impl Model for QsbrGraceKept {
    ghost also_owns = { λ h. owned_at heap_token qsbr_grace h.at h.value };
}

// What it owns may cross.
unsafe impl Send for QsbrGraceKept {}

/// `struct robiniagolf_qsbr_grace`. All zeros keeps nothing.
#[repr(C)]
#[derive(Drop)]
pub struct QsbrGraceHandle {
    /// Whether it keeps something.
    pub full: bool,
    /// What it keeps.
    pub kept: QsbrGraceKept,
    pub ghost told: { full ≡ is_some kept.value },
}

/// The pointer to a domain of the quiescent-state flavour in a box of the heap, or null.
#[repr(C)]
#[derive(Drop)]
pub struct QsbrDomainKept {
    at: *mut u8,
    pub ghost value: { Option QsbrDomain } by { coded_option qsbr_domain.coded },
}

impl Model for QsbrDomainKept {
    ghost also_owns = { λ h. owned_at heap_token qsbr_domain h.at h.value };
}

// What it owns may cross.
unsafe impl Send for QsbrDomainKept {}

/// `struct robiniagolf_qsbr_domain`. All zeros keeps nothing.
#[repr(C)]
#[derive(Drop)]
pub struct QsbrDomainHandle {
    /// Whether it keeps something.
    pub full: bool,
    /// What it keeps.
    pub kept: QsbrDomainKept,
    pub ghost told: { full ≡ is_some kept.value },
}

fn crosses<T: Send>(_handle: &T) {}

/// C may hand it to another thread.
pub fn memb_reader_crosses(handle: &MembReaderHandle) {
    crosses(handle);
}

/// C may hand it to another thread.
pub fn memb_grace_crosses(handle: &MembGraceHandle) {
    crosses(handle);
}

/// C may hand it to another thread.
pub fn memb_domain_crosses(handle: &MembDomainHandle) {
    crosses(handle);
}

/// C may hand it to another thread.
pub fn qsbr_reader_crosses(handle: &QsbrReaderHandle) {
    crosses(handle);
}

/// C may hand it to another thread.
pub fn qsbr_grace_crosses(handle: &QsbrGraceHandle) {
    crosses(handle);
}

/// C may hand it to another thread.
pub fn qsbr_domain_crosses(handle: &QsbrDomainHandle) {
    crosses(handle);
}
