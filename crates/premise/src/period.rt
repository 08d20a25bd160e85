// The period that a call closes.
ghost use Rattle.std.specs.Prelude.{◌≡◌, ◌-◌, ◌<◌, true, length, take, Some};
ghost use Rattle.estimating.specs.Estimates.{Lawful};
ghost use Rattle.premise.specs.Files.{in_use, next_period, usage_days_of, question, figure_from, closing, putting_off, billing};

use crate::own::OwnBook;
use estimating::basis::{Basis, Question};
use estimating::method::EnergyMethod;
use judging::Judgement;
use measures::entry::{Entry, Kind};
use measures::refusal;

// A period of a premise that ends on a day, and that its book has a place for.
#[derive(Drop)]
pub(crate) struct Period<'f, 'b, M, J> {
    pub(crate) own: OwnBook<'f, 'b, M, J>,
    pub(crate) day: u16,
    ghost next: { next_period own.file.now day ≡ true },
    ghost room: { in_use own.file.now < length own.book.now },
}

// How the advance of a read is billed.
#[derive(Clone, Copy)]
pub(crate) enum Billing {
    // On the entry of the read alone, as so many kWh of a kind.
    Alone(Kind, u32),
    // Shared out over the open entries and the entry of the read.
    Shared,
}

impl<M, J> Period<'_, '_, M, J> {
    // Its days.
    pub(crate) fn days(&self) -> u8
        ensures { result ≡ self.now.day - self.now.own.file.now.day }
    {
        (self.day - self.own.file.day) as u8
    }

    // Its days, and those of a put-off entry directly before it.
    fn usage_days(&self) -> u8
        ensures { result ≡ usage_days_of self.now.own.file.now self.now.own.book.now self.now.day }
    {
        self.days() + self.own.waiting_days()
    }

    // Its entry.
    pub(crate) fn closing(&self, kind: Kind, rung: u8, kwh: u32) -> Entry
        ensures { result ≡ closing self.now.own.file.now self.now.own.book.now self.now.day kind rung kwh }
    {
        Entry {
            customer: self.own.file.customer,
            end_day: self.day,
            days: self.days(),
            usage_days: self.usage_days(),
            kind,
            rung,
            initial: self.own.file.is_fresh(),
            kwh,
        }
    }

    // Its entry where it is put off until the next one.
    pub(crate) fn putting_off(&self) -> Entry
        ensures { result ≡ putting_off self.now.own.file.now self.now.day }
    {
        Entry {
            customer: self.own.file.customer,
            end_day: self.day,
            days: self.days(),
            usage_days: 0,
            kind: Kind::PutOff,
            rung: 0,
            initial: self.own.file.is_fresh(),
            kwh: 0,
        }
    }

    // The rung and kWh of a basis, where the open sum stays below the dial's turn.
    fn estimated(&self, basis: Basis) -> Result<(u8, u32), u8>
        requires { Lawful basis }
        ensures { result ≡ figure_from (Some basis) self.now.own.file.now self.now.own.book.now self.now.day }
    {
        let kwh = basis.estimate(u16::from(self.usage_days())).unwrap();
        let open_sum = self.own.open_run().sum_kwh();
        if open_sum + kwh >= u64::from(self.own.file.dial.turn()) {
            return Err(refusal::PAST_DIAL);
        }
        Ok((basis.rung, kwh as u32))
    }
}

impl<M: EnergyMethod, J> Period<'_, '_, M, J> {
    // The rung and kWh that the method gives for it.
    pub(crate) fn figure(&self) -> Result<(u8, u32), u8>
        ensures { result ≡ figure_from (M.Method.table self.now.own.file.now.method (take (in_use self.now.own.file.now) self.now.own.book.now) (question self.now.own.file.now self.now.day)) self.now.own.file.now self.now.own.book.now self.now.day }
    {
        let asked = Question {
            customer: self.own.file.customer,
            start_day: self.own.file.day,
            end_day: self.day,
            rate: self.own.file.rate,
        };
        let basis = self
            .own
            .file
            .method
            .answer(self.own.entries(), &asked)
            .ok_or(refusal::NO_ANSWER)?;
        self.estimated(basis)
    }
}

impl<M, J: Judgement> Period<'_, '_, M, J> {
    // How an advance that was read on its last day is billed.
    pub(crate) fn billing(&self, advance: u32) -> Billing
        ensures { result ≡ billing J.Judgement.higher self.now.own.file.now self.now.own.book.now self.now.day advance }
    {
        let run = self.own.open_run();
        if !run.has_estimate() {
            return Billing::Alone(Kind::Actual, advance);
        }
        let open_sum = run.sum_kwh();
        let usage_days = u64::from(run.usage_days()) + u64::from(self.usage_days());
        let advanced = u64::from(advance);
        let judgement = &self.own.file.judgement;
        if advanced < open_sum || judgement.is_higher(advanced, open_sum, usage_days) {
            return Billing::Shared;
        }
        Billing::Alone(Kind::TrueUp, (advanced - open_sum) as u32)
    }
}
