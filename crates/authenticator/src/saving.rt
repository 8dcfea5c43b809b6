//! Saving an authenticator.

ghost use Rattle.std.specs.Prelude.{◌≡◌, IfOk, OnErr, OnOk, length, map};
ghost use Rattle.refusal_order.specs.Lines.{Each};
ghost use Rattle.ccbor.specs.Canon.{Fits, ItemsFit};
ghost use Rattle.ccbor.specs.View.{items_of, items_view, view};
ghost use Rattle.authenticator.specs.Saved.{AppendsSaved, IsSource, authenticator_item, is_self_signed, source_item};
ghost use Rattle.authenticator.specs.State.{forgotten};
ghost use Rattle.authenticator.specs.Views.{credential_source_view, credential_sources_view};

use crate::authenticator::Authenticator;
use crate::credential::StoredCredential;
use crate::reading::VERSION;
use authdata::AttestationType;
use ccbor::{Value, encode};
use ctap_encoding::{bytes_value, text_value};
use std::alloc::{AllocError, Global};

/// Whether new credentials are attested by their own keys.
fn is_self_signed(attest: AttestationType) -> bool
    ensures { result ≡ is_self_signed attest }
{
    match attest {
        AttestationType::None => false,
        AttestationType::SelfSigned => true,
    }
}

/// The value of a credential's map.
fn source_value(alloc: Global, credential: &StoredCredential) -> Result<Value, AllocError>
    ensures source { IfOk result (λ _. IsSource (credential_source_view credential.now)) }
    ensures fits { IfOk result (λ _. Fits 2 (source_item (credential_source_view credential.now))) }
    ensures value { IfOk result (λ v. view v ≡ source_item (credential_source_view credential.now)) }
{
    let id = bytes_value(alloc, &credential.id)?;
    let rp_id = text_value(alloc, &credential.rp_id)?;
    let user = bytes_value(alloc, &credential.user)?;
    let secret = bytes_value(alloc, &credential.secret)?;
    let alg = Value::Nint(credential.alg.alg().argument());
    let resident = Value::Bool(credential.resident);
    let sign_count = Value::Uint(u64::from(credential.sign_count));
    let pairs = vec![in alloc;
        (Value::Uint(1), id),
        (Value::Uint(2), rp_id),
        (Value::Uint(3), user),
        (Value::Uint(4), secret),
        (Value::Uint(5), alg),
        (Value::Uint(6), resident),
        (Value::Uint(7), sign_count),
    ]?;
    Ok(Value::Map(pairs))
}

/// The values of the credentials' maps, in their order.
fn source_values(alloc: Global, credentials: &[StoredCredential]) -> Result<Vec<Value>, AllocError>
    ensures sources { OnOk result (Each IsSource (credential_sources_view credentials.now)) }
    ensures fit { OnOk result (ItemsFit 2 (items_of (map source_item (credential_sources_view credentials.now)))) }
    ensures values { IfOk result (λ vs. items_view vs.items ≡ items_of (map source_item (credential_sources_view credentials.now))) }
{
    let mut values = Vec::new(alloc);
    for credential in credentials {
        values.push(source_value(alloc, credential)?)?;
    }
    Ok(values)
}

impl Authenticator {
    /// The value of the whole.
    fn saved_value(&self) -> Result<Value, AllocError>
        ensures aaguid { OnOk result (length self.now.aaguid ≡ 16) }
        ensures sources { OnOk result (Each IsSource self.now.credentials) }
        ensures fits { OnOk result (Fits 4 (authenticator_item self.now)) }
        ensures value { IfOk result (λ v. view v ≡ authenticator_item self.now) }
    {
        let alloc = self.allocator();
        let aaguid = bytes_value(alloc, &self.aaguid)?;
        let credentials = source_values(alloc, &self.credentials)?;
        let pairs = vec![in alloc;
            (Value::Uint(1), Value::Uint(VERSION)),
            (Value::Uint(2), aaguid),
            (Value::Uint(3), Value::Bool(self.uv)),
            (Value::Uint(4), Value::Bool(is_self_signed(self.attest))),
            (Value::Uint(5), Value::Array(credentials)),
        ]?;
        Ok(Value::Map(pairs))
    }

    /// Appends what [`load`](Authenticator::load) takes: all that the authenticator keeps but what it remembers of a
    /// getAssertion. The secrets of its credentials stand in it as they are, so whoever reads the bytes can sign.
    ///
    /// Where there is no memory the output's bytes are as they were.
    pub fn save(&self, out: &mut Vec<u8>) -> Result<(), AllocError>
        ensures saved { OnOk result (AppendsSaved self.now out.old.items out.new.items) }
        ensures unchanged { OnErr result (out.new.items ≡ out.old.items) }
    {
        let value = self.saved_value()?;
        match encode(&value, out) {
            Ok(()) => Ok(()),
            Err(error) => match error {
                ccbor::Error::Memory => Err(AllocError),
                _ => unreachable!(),
            },
        }
    }
}
