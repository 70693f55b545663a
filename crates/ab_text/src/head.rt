//! The head of a schedule.

ghost use Rattle.std.specs.Prelude.{◌≡◌, ◌<◌, ◌≤◌, [], length, IfOk};
ghost use Rattle.ab_text.specs.Lines.{lines_of};
ghost use Rattle.ab_text.specs.Heads.{Gives, number_at, name_at, head_at, number_after, spelled_in, abstract_line, versions, plan_line, plans, service_line, services, lms_line, one_level, schemes, schemes_of, two_levels, version_with};
ghost use Rattle.ab_text.specs.Settings.{set_up};

use crate::fault::TextFault;
use crate::head_lines::{HeadLines, cluster_of};
use crate::later_lines::{every_at, head_count, seed_with};
use crate::lines::next_line;
use crate::numbers::number;
use crate::parts::after;
use crate::version::Version;
use ab_num::{Height, Plan, Scheme, ServiceName};

/// The number after a word.
pub fn word_number(line: &[u8], word: &[u8]) -> Option<u64>
    ensures { result ≡ number_after word.now line.now }
{
    match after(line, word) {
        None => None,
        Some(digits) => number(digits),
    }
}

/// The number in line `n`, after its word, and what comes after that line.
pub(crate) fn numbered<'a>(
    text: &'a [u8],
    word: &[u8],
    low: u64,
    high: u64,
    n: u32,
) -> Result<(u64, &'a [u8]), TextFault>
    ensures reads { Gives (λ p. (p.0, lines_of p.1.now)) result (number_at word.now low high n (lines_of text.now)) }
    ensures low { IfOk result (λ p. low ≤ p.0) }
    ensures high { IfOk result (λ p. p.0 ≤ high) }
    ensures shorter { IfOk result (λ p. length p.1.now ≤ length text.now) }
{
    match next_line(text) {
        None => Err(TextFault::NoEnd(n)),
        Some((line, rest)) => match word_number(line, word) {
            None => Err(TextFault::BadLine(n)),
            Some(k) => {
                if k >= low && k <= high {
                    Ok((k, rest))
                } else {
                    Err(TextFault::BadLine(n))
                }
            }
        },
    }
}

/// The first line of a schedule.
pub(crate) fn version_text(version: Version) -> &'static str
    ensures { result.now ≡ abstract_line version }
{
    match version {
        Version::One => "abstract 1",
        Version::Two => "abstract 2",
        Version::Three => "abstract 3",
        Version::Four => "abstract 4",
    }
}

/// The version that a first line names.
#[tactic(auto, unfolding(crate::specs::Heads::spelled_in))]
pub(crate) fn version_in(line: &[u8]) -> Option<Version>
    ensures { result ≡ spelled_in abstract_line versions line.now }
{
    if line == b"abstract 1".as_slice() {
        return Some(Version::One);
    }
    if line == b"abstract 2".as_slice() {
        return Some(Version::Two);
    }
    if line == b"abstract 3".as_slice() {
        return Some(Version::Three);
    }
    if line == b"abstract 4".as_slice() {
        return Some(Version::Four);
    }
    None
}

/// The least version that has the scheme.
pub(crate) fn version_with(scheme: Scheme) -> Version
    ensures { result ≡ version_with scheme }
{
    match scheme {
        Scheme::Lms(_) => Version::One,
        Scheme::Hss => Version::Two,
    }
}

/// The line that names a plan.
pub fn plan_text(plan: Plan) -> &'static str
    ensures { result.now ≡ plan_line plan }
{
    match plan {
        Plan::AZyzzyva => "plan azyzzyva",
        Plan::Aliph => "plan aliph",
        Plan::Quorum => "plan quorum",
        Plan::ZLight => "plan zlight",
        Plan::Chain => "plan chain",
        Plan::Backup => "plan backup",
        Plan::ZCert => "plan zcert",
    }
}

/// The plan that a line names.
#[tactic(auto, unfolding(crate::specs::Heads::spelled_in))]
pub fn plan_in(line: &[u8]) -> Option<Plan>
    ensures { result ≡ spelled_in plan_line plans line.now }
{
    if line == b"plan azyzzyva".as_slice() {
        return Some(Plan::AZyzzyva);
    }
    if line == b"plan aliph".as_slice() {
        return Some(Plan::Aliph);
    }
    if line == b"plan quorum".as_slice() {
        return Some(Plan::Quorum);
    }
    if line == b"plan zlight".as_slice() {
        return Some(Plan::ZLight);
    }
    if line == b"plan chain".as_slice() {
        return Some(Plan::Chain);
    }
    if line == b"plan backup".as_slice() {
        return Some(Plan::Backup);
    }
    if line == b"plan zcert".as_slice() {
        return Some(Plan::ZCert);
    }
    None
}

/// The line that names a service.
pub fn service_text(service: ServiceName) -> &'static str
    ensures { result.now ≡ service_line service }
{
    match service {
        ServiceName::Echo => "service echo",
        ServiceName::Kv => "service kv",
    }
}

/// The service that a line names.
#[tactic(auto, unfolding(crate::specs::Heads::spelled_in))]
pub fn service_in(line: &[u8]) -> Option<ServiceName>
    ensures { result ≡ spelled_in service_line services line.now }
{
    if line == b"service echo".as_slice() {
        return Some(ServiceName::Echo);
    }
    if line == b"service kv".as_slice() {
        return Some(ServiceName::Kv);
    }
    None
}

/// The line that names a scheme.
pub fn scheme_text(lms: Scheme) -> &'static str
    ensures { result.now ≡ lms_line lms }
{
    match lms {
        Scheme::Lms(Height::Five) => "lms 5",
        Scheme::Lms(Height::Ten) => "lms 10",
        Scheme::Hss => "lms 20",
    }
}

/// The scheme of one level that a line names.
#[tactic(auto, unfolding(crate::specs::Heads::spelled_in))]
pub fn one_level_in(line: &[u8]) -> Option<Scheme>
    ensures { result ≡ spelled_in lms_line one_level line.now }
{
    if line == b"lms 5".as_slice() {
        return Some(Scheme::Lms(Height::Five));
    }
    if line == b"lms 10".as_slice() {
        return Some(Scheme::Lms(Height::Ten));
    }
    None
}

/// The scheme of two levels, if a line names it.
#[tactic(auto, unfolding(crate::specs::Heads::spelled_in))]
pub fn two_levels_in(line: &[u8]) -> Option<Scheme>
    ensures { result ≡ spelled_in lms_line two_levels line.now }
{
    if line == b"lms 20".as_slice() {
        return Some(Scheme::Hss);
    }
    None
}

/// The scheme that a line names.
#[tactic(auto, unfolding(crate::specs::Heads::spelled_in))]
pub fn scheme_in(line: &[u8]) -> Option<Scheme>
    ensures { result ≡ spelled_in lms_line schemes line.now }
{
    if line == b"lms 5".as_slice() {
        return Some(Scheme::Lms(Height::Five));
    }
    if line == b"lms 10".as_slice() {
        return Some(Scheme::Lms(Height::Ten));
    }
    if line == b"lms 20".as_slice() {
        return Some(Scheme::Hss);
    }
    None
}

/// The scheme that a line names in a schedule of this version.
fn scheme_with(version: Version, line: &[u8]) -> Option<Scheme>
    ensures { result ≡ spelled_in lms_line (schemes_of version) line.now }
{
    match version {
        Version::One => one_level_in(line),
        Version::Two | Version::Three | Version::Four => scheme_in(line),
    }
}

/// The version in line `n`, and what comes after that line.
fn version_at(text: &[u8], n: u32) -> Result<(Version, &[u8]), TextFault>
    ensures reads { Gives (λ p. (p.0, lines_of p.1.now)) result (name_at abstract_line versions n (lines_of text.now)) }
    ensures shorter { IfOk result (λ p. length p.1.now ≤ length text.now) }
{
    match next_line(text) {
        None => Err(TextFault::NoEnd(n)),
        Some((line, rest)) => match version_in(line) {
            None => Err(TextFault::BadLine(n)),
            Some(version) => Ok((version, rest)),
        },
    }
}

/// The plan in line `n`, and what comes after that line.
fn plan_at(text: &[u8], n: u32) -> Result<(Plan, &[u8]), TextFault>
    ensures reads { Gives (λ p. (p.0, lines_of p.1.now)) result (name_at plan_line plans n (lines_of text.now)) }
    ensures shorter { IfOk result (λ p. length p.1.now ≤ length text.now) }
{
    match next_line(text) {
        None => Err(TextFault::NoEnd(n)),
        Some((line, rest)) => match plan_in(line) {
            None => Err(TextFault::BadLine(n)),
            Some(plan) => Ok((plan, rest)),
        },
    }
}

/// The service in line `n`, and what comes after that line.
fn service_at(text: &[u8], n: u32) -> Result<(ServiceName, &[u8]), TextFault>
    ensures reads { Gives (λ p. (p.0, lines_of p.1.now)) result (name_at service_line services n (lines_of text.now)) }
    ensures shorter { IfOk result (λ p. length p.1.now ≤ length text.now) }
{
    match next_line(text) {
        None => Err(TextFault::NoEnd(n)),
        Some((line, rest)) => match service_in(line) {
            None => Err(TextFault::BadLine(n)),
            Some(service) => Ok((service, rest)),
        },
    }
}

/// The scheme in line `n` of a schedule of this version, and what comes after that line.
fn scheme_at(version: Version, text: &[u8], n: u32) -> Result<(Scheme, &[u8]), TextFault>
    ensures reads { Gives (λ p. (p.0, lines_of p.1.now)) result (name_at lms_line (schemes_of version) n (lines_of text.now)) }
    ensures shorter { IfOk result (λ p. length p.1.now ≤ length text.now) }
{
    match next_line(text) {
        None => Err(TextFault::NoEnd(n)),
        Some((line, rest)) => match scheme_with(version, line) {
            None => Err(TextFault::BadLine(n)),
            Some(scheme) => Ok((scheme, rest)),
        },
    }
}

/// What the lines of the head set up, and what comes after them.
#[tactic(auto, unfolding(crate::specs::Heads::head_at))]
pub(crate) fn head_of(text: &[u8]) -> Result<(HeadLines, &[u8]), TextFault>
    ensures reads { Gives (λ p. record { script = set_up p.0 []; next = p.0.next; rest = lines_of p.1.now }) result (head_at (lines_of text.now)) }
    ensures shorter { IfOk result (λ p. length p.1.now ≤ length text.now) }
    ensures few { IfOk result (λ p. p.0.next ≤ 9) }
{
    let (version, rest) = version_at(text, 1)?;
    let (f, rest) = numbered(rest, b"f ", 1, 2, 2)?;
    let (plan, rest) = plan_at(rest, 3)?;
    let (clients, rest) = numbered(rest, b"clients ", 1, 16, 4)?;
    let (service, rest) = service_at(rest, 5)?;
    let (lms, rest) = scheme_at(version, rest, 6)?;
    let (every, rest) = every_at(version, plan, rest)?;
    let (seed, rest) = seed_with(version, rest)?;
    let cluster = cluster_of(f as u8, clients as u16, plan, every);
    let setting = HeadLines {
        cluster,
        service,
        lms,
        seed,
        next: head_count(version) + 1,
    };
    Ok((setting, rest))
}
