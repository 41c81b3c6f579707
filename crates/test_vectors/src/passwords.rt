//! Passwords: codes, keys, verifiers, and whole exchanges.

use crate::wording::answer::{bytes_of, tell_fault};
use anyhow::{Result, bail};
use pqformat::Items;
use scram::{
    Account, ClientExchange, Exchange, ExchangeFault, Login, ProofRequest, Reply, ServerFault,
    Verifier, hmac_sha256, line_of_user, salted_password,
};
use std::alloc::{AllocError, Global};

/// `KEY|TEXT`, both in hexadecimal digits, as the code is.
pub fn answer_hmac(alloc: Global, given: &str, answer: &mut String) -> Result<()> {
    let (key, text) = given.split_once('|').unwrap_or((given, ""));
    let code = hmac_sha256(
        alloc,
        bytes_of(alloc, key)?.as_slice(),
        bytes_of(alloc, text)?.as_slice(),
    )?;
    Ok(add_digits(alloc, code.as_slice(), answer)?)
}

/// `PASSWORD|SALT|ROUNDS`: the first two in hexadecimal digits, as the key is.
pub fn answer_hi(alloc: Global, given: &str, answer: &mut String) -> Result<()> {
    let (password, rest) = given.split_once('|').unwrap_or((given, ""));
    let (salt, rounds) = rest.split_once('|').unwrap_or((rest, ""));
    let rounds = rounds.parse::<u32>().unwrap_or(0);
    if rounds == 0 {
        bail!("no rounds");
    }
    let password = bytes_of(alloc, password)?;
    let salt = bytes_of(alloc, salt)?;
    let key = salted_password(alloc, password.as_slice(), salt.as_slice(), rounds)?;
    Ok(add_digits(alloc, key.as_slice(), answer)?)
}

/// `NAME|PASSWORD|SALT`, the salt in hexadecimal digits: the line of the user.
pub fn answer_verifier_of(alloc: Global, given: &str, answer: &mut String) -> Result<()> {
    let (name, rest) = given.split_once('|').unwrap_or((given, ""));
    let (password, salt) = rest.split_once('|').unwrap_or((rest, ""));
    let salt = bytes_of(alloc, salt)?;
    let Ok(salt) = <[u8; 16]>::try_from(salt.as_slice()) else {
        bail!("no salt of 16 bytes");
    };
    let line = line_of_user(alloc, name, password.as_bytes(), salt)?;
    Ok(write!(answer, "= {line}")?)
}

/// A verifier is written again.
pub fn answer_verifier(alloc: Global, given: &str, answer: &mut String) -> Result<()> {
    match Verifier::of_text(alloc, given) {
        Ok(verifier) => {
            let text = verifier.text(alloc)?;
            Ok(write!(answer, "= {text}")?)
        }
        Err(fault) => Ok(tell_fault(answer, &fault)?),
    }
}

/// `VERIFIER|NONCE|FIRST|LAST`: what the server says to both messages of a client. In the place of a verifier `-` is a user who isn't
/// there.
pub fn answer_proved(alloc: Global, given: &str, answer: &mut String) -> Result<()> {
    let (verifier, rest) = given.split_once('|').unwrap_or((given, ""));
    let (nonce, rest) = rest.split_once('|').unwrap_or((rest, ""));
    let (first, last) = rest.split_once('|').unwrap_or((rest, ""));
    let account = account_of(alloc, verifier)?;
    Ok(match said(alloc, account, nonce, first, last) {
        Ok((challenge, signature)) => add_said(alloc, &challenge, &signature, answer),
        Err(fault) => write!(answer, "! {fault:?}"),
    }?)
}

/// `PASSWORD|NAME|NONCE|FIRST|LAST`: what a client says, and whether it takes the server for one that knows the password.
pub fn answer_proves(alloc: Global, given: &str, answer: &mut String) -> Result<()> {
    let (password, rest) = given.split_once('|').unwrap_or((given, ""));
    let (name, rest) = rest.split_once('|').unwrap_or((rest, ""));
    let (nonce, rest) = rest.split_once('|').unwrap_or((rest, ""));
    let (first, last) = rest.split_once('|').unwrap_or((rest, ""));
    let name = Items::new(Vec::from_slice(alloc, name.as_bytes())?);
    let nonce = Items::new(Vec::from_slice(alloc, nonce.as_bytes())?);
    let exchange = ClientExchange::new(name, nonce);
    let asked = exchange.first(alloc)?;
    Ok(match answered(alloc, &exchange, password, first, last) {
        Ok(said) => add_said(alloc, &asked, &said, answer),
        Err(fault) => write!(answer, "! {fault:?}"),
    }?)
}

fn answered(
    alloc: Global,
    exchange: &ClientExchange,
    password: &str,
    first: &str,
    last: &str,
) -> Result<Items<u8>, ServerFault> {
    let answer = exchange.answer(alloc, password.as_bytes(), first.as_bytes())?;
    answer.confirm(last.as_bytes())?;
    Ok(answer.said)
}

/// `VERIFIER|NONCE|BODY|..`: what is said to messages with these bodies, which are in hexadecimal digits, up to the end of the login.
pub fn answer_login(alloc: Global, given: &str, answer: &mut String) -> Result<()> {
    let (verifier, rest) = given.split_once('|').unwrap_or((given, ""));
    let (nonce, bodies) = rest.split_once('|').unwrap_or((rest, ""));
    let nonce = Items::new(Vec::from_slice(alloc, nonce.as_bytes())?);
    let account = account_of(alloc, verifier)?;
    answer.push('=')?;
    let mut login = Login::Offered(ProofRequest { account, nonce });
    for body in bodies.split('|') {
        let body = bytes_of(alloc, body)?;
        match login.answer(alloc, body.as_slice()) {
            Ok(Reply::Continue(text, next)) => {
                add_text(alloc, " continue ", text.as_slice(), answer)?;
                login = next;
            }
            Ok(Reply::Final(text)) => {
                return Ok(add_text(alloc, " final ", text.as_slice(), answer)?);
            }
            Err(fault) => return Ok(add_told(alloc, fault, answer)?),
        }
    }
    drop(login);
    Ok(())
}

fn add_text(
    alloc: Global,
    before: &str,
    text: &[u8],
    answer: &mut String,
) -> Result<(), AllocError> {
    let text = String::from_utf8_lossy(alloc, text)?;
    write!(answer, "{before}{text}")
}

fn add_told(alloc: Global, fault: ExchangeFault, answer: &mut String) -> Result<(), AllocError> {
    let (code, text) = fault.told();
    write!(answer, " error {code} {text}")?;
    match fault.detail(alloc)? {
        Some(detail) => write!(answer, "; {detail}"),
        None => Ok(()),
    }
}

fn account_of(alloc: Global, verifier: &str) -> Result<Account> {
    if verifier == "-" {
        return Ok(Account::unknown(alloc, b"secret", b"nobody")?);
    }
    match Verifier::of_text(alloc, verifier) {
        Ok(verifier) => Ok(Account::known(verifier)),
        Err(fault) => bail!("{fault}"),
    }
}

fn said(
    alloc: Global,
    account: Account,
    nonce: &str,
    first: &str,
    last: &str,
) -> Result<(Items<u8>, Items<u8>), ExchangeFault> {
    let exchange = Exchange::begin(alloc, account, nonce.as_bytes(), first.as_bytes())?;
    let challenge = exchange.challenge(alloc)?;
    let signature = exchange.finish(alloc, last.as_bytes())?;
    Ok((challenge, signature))
}

fn add_said(
    alloc: Global,
    challenge: &Items<u8>,
    signature: &Items<u8>,
    answer: &mut String,
) -> Result<(), AllocError> {
    let challenge = String::from_utf8_lossy(alloc, challenge.as_slice())?;
    let signature = String::from_utf8_lossy(alloc, signature.as_slice())?;
    write!(answer, "= {challenge} {signature}")
}

fn add_digits(alloc: Global, bytes: &[u8], answer: &mut String) -> Result<(), AllocError> {
    let digits = hex::encode(alloc, bytes)?;
    write!(answer, "= {digits}")
}
