// The network: one request in place for three stations and a master (`Network::ask`): of the master the next number, the free slots, the numbers and the ports, of each station
// its leads and its sets. A station holds the sets of its own cells, 0 to 84, 85 to 169 and 170 to 255; the master joins the three leads before each answer that goes by them. What is
// done to the rows of a station is in the crate `rows`, and what the master looks for in the crate `slots`.
#![tactic(auto)]

ghost use Rattle.std.specs.Prelude.{◌≡◌, false, ◌%◌, ◌<◌};
ghost use Rattle.marks.specs.Marks.{bit};
ghost use Rattle.history.specs.Formats.{request_of};
ghost use Rattle.history.specs.Replies.{an_open, a_step, an_end, an_abandon, a_publish};
ghost use Rattle.rows.specs.Rows.{kind_of};
ghost use Rattle.stations.specs.Stations.{network_left};
ghost use Rattle.network.specs.Nets.{net_of, number_of, joined_rows, leads_at, any_altered, StepsAt, StepsThere, Does, Steps};

use cells::Cell;
use rows::{Deed, Slot, hand_on, has_altered, leading, open_slot, step_slot, touching, vacate};
use slots::{Answer, JobNumber, Kind, Refusal, Request, closes, open_job, slot_for};

// ---- a station

// What a station keeps: for each slot the slots that it leads to, and its sets.
#[derive(Clone, Copy, PartialEq, Eq)]
pub struct Station {
    pub leads: [u32; 32],
    pub sets: [u64; 512],
}

impl Station {
    // A step: does it close a circle, by the joined leads and those that the station would add? Where it does, nothing is changed. A bool, here and in `step_there`: `StepsAt` says whether
    // there is a circle, and `step_job` names the refusal.
    fn step(&mut self, free: u32, joined: &[u32; 32], slot: Slot, deed: Deed, cell: Cell) -> bool
        requires { (slot.0 < 32) × (bit free slot.0 ≡ false) }
        ensures { StepsAt free joined.now self.old.leads self.old.sets (kind_of deed) slot.0 cell.0 result self.new.leads self.new.sets }
    {
        let touched = touching(free, &self.sets, slot, deed, cell);
        if closes(free, joined, slot, touched) {
            return true;
        }
        step_slot(&mut self.leads, &mut self.sets, slot, deed, cell, touched);
        false
    }
}

// The station of a cell.
pub fn station_of(cell: Cell) -> usize
    ensures { result ≡ number_of cell.0 }
{
    match cell.0 {
        ..=84 => 0,
        ..=169 => 1,
        _ => 2,
    }
}

// ---- the three together

// Where each slot leads to by what one station or another knows.
fn join_leads(stations: &[Station; 3]) -> [u32; 32]
    ensures { result ≡ joined_rows (leads_at stations.now 0) (leads_at stations.now 1) (leads_at stations.now 2) }
{
    let [first, second, third] = stations;
    let mut joined = [0u32; 32];
    for (i, row) in joined.iter_mut().enumerate() {
        *row = first.leads[i] | (second.leads[i] | third.leads[i]);
    }
    joined
}

// Does some station know that the slot has altered a cell?
fn some_altered(stations: &[Station; 3], slot: Slot) -> bool
    ensures { result ≡ any_altered stations.now (slot.0 % 32) }
{
    stations
        .iter()
        .any(|station| has_altered(&station.sets, slot))
}

// What the master keeps, and the three stations.
#[derive(Clone, Copy, PartialEq, Eq)]
pub struct Network {
    pub next: u64,
    pub free: u32,
    pub numbers: [u32; 32],
    pub ports: [u32; 3],
    pub stations: [Station; 3],
}

impl Network {
    // A slot is left at every station, and at each the slots of the mask take over what it holds there.
    fn leave_all(&mut self, from: u32, slot: Slot)
        ensures { net_of self.new ≡ network_left (net_of self.old) (bit from) (slot.0 % 32) }
    {
        let free = self.free;
        for station in self.stations.iter_mut() {
            hand_on(free, &mut station.leads, &mut station.sets, from, slot);
        }
        self.free = vacate(free, &mut self.numbers, slot);
    }

    // A step at the station of its cell: does it close a circle? Where it does, nothing is changed.
    fn step_there(&mut self, slot: Slot, deed: Deed, cell: Cell) -> bool
        requires { (slot.0 < 32) × (bit self.old.free slot.0 ≡ false) }
        ensures { StepsThere (net_of self.old) (kind_of deed) slot.0 cell.0 result (net_of self.new) }
    {
        let joined = join_leads(&self.stations);
        let station = &mut self.stations[station_of(cell)];
        station.step(self.free, &joined, slot, deed, cell)
    }

    // ---- one request of each kind

    // The job field of an open names the port. The master opens, and station 0 with it, and then the two others.
    fn open_all(&mut self, port: u32) -> Answer
        ensures { Does (net_of self.old) an_open port 0 result (net_of self.new) }
    {
        let spare = self.free;
        let first = &mut self.stations[0];
        let job = open_job(
            &mut self.next,
            &mut self.free,
            &mut self.numbers,
            &mut first.leads,
            &mut first.sets,
            &mut self.ports,
            port,
        )?;
        let slot = Slot(spare.trailing_zeros());
        let second = &mut self.stations[1];
        open_slot(spare, &mut second.leads, &mut second.sets, slot);
        let third = &mut self.stations[2];
        open_slot(spare, &mut third.leads, &mut third.sets, slot);
        Ok(job)
    }

    fn step_job(&mut self, deed: Deed, job: JobNumber, cell: u32) -> Answer
        ensures { Does (net_of self.old) (a_step (kind_of deed)) job.0 cell result (net_of self.new) }
    {
        let cell = Cell::try_from(cell)?;
        let slot = slot_for(self.free, &self.numbers, job).ok_or(Refusal::NotOpen)?;
        if self.step_there(slot, deed, cell) {
            return Err(Refusal::Circle);
        }
        Ok(job)
    }

    // Who takes over is told by the joined leads: a chain may come in at one station and go on at another.
    fn end_job(&mut self, job: JobNumber) -> Answer
        ensures { Does (net_of self.old) an_end job.0 0 result (net_of self.new) }
    {
        let slot = slot_for(self.free, &self.numbers, job).ok_or(Refusal::NotOpen)?;
        let joined = join_leads(&self.stations);
        let from = leading(self.free, &joined, slot);
        self.leave_all(from, slot);
        Ok(job)
    }

    // What a station knows of the job's altered cells bars it.
    fn abandon_job(&mut self, job: JobNumber) -> Answer
        ensures { Does (net_of self.old) an_abandon job.0 0 result (net_of self.new) }
    {
        let slot = slot_for(self.free, &self.numbers, job).ok_or(Refusal::NotOpen)?;
        if some_altered(&self.stations, slot) {
            return Err(Refusal::HasWritten);
        }
        self.leave_all(0, slot);
        Ok(job)
    }

    // The write, and where it was granted the end of its job.
    fn publish_job(&mut self, job: JobNumber, on: u32) -> Answer
        ensures { Does (net_of self.old) a_publish job.0 on result (net_of self.new) }
    {
        let written = self.step_job(Deed::Write, job, on)?;
        self.end_job(written)
    }

    // One request, in place. A refusal leaves the network as it was.
    pub fn ask(&mut self, request: [u8; 8]) -> Answer
        ensures { Steps (net_of self.old) (request_of request) result (net_of self.new) }
    {
        let asked = Request::try_from(request)?;
        let job = asked.job;
        let on = asked.cell;
        match asked.kind {
            Kind::Open => self.open_all(job.0),
            Kind::Read => self.step_job(Deed::Read, job, on),
            Kind::Write => self.step_job(Deed::Write, job, on),
            Kind::End => self.end_job(job),
            Kind::Abandon => self.abandon_job(job),
            Kind::Publish => self.publish_job(job, on),
            Kind::Add => self.step_job(Deed::Add, job, on),
        }
    }
}
